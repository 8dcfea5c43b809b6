//! What is counted since the start, for the act `status`.

use crate::answer::Answer;
use crate::line::Answered;

/// One more than the highest number of a step: 18 of a sign-in, 19 of a registration.
pub(crate) const STEPS: usize = 20;

/// What is counted since the start.
#[derive(Clone, Copy, Debug, PartialEq, Eq, Drop)]
pub struct Tally {
    /// Commits that wrote something.
    pub commits: u64,
    /// Microseconds of the last such commit, its flush among them.
    pub last_commit: u64,
    /// Sign-ins that were accepted.
    pub sign_ins: u64,
    /// Registrations that were accepted.
    pub registrations: u64,
    /// Sign-ins that a step refused, by the step's number; 0 is not used.
    pub sign_in_refusals: [u64; STEPS],
    /// Registrations that a step refused, by the step's number; 0 is not used.
    pub registration_refusals: [u64; STEPS],
    /// Lines of the log that could not be written.
    pub lost_log_lines: u64,
}

/// One more at a step's number.
fn note_step(counts: &mut [u64; STEPS], step: u8) {
    if let Some(count) = counts.get_mut(usize::from(step)) {
        *count = count.saturating_add(1);
    }
}

impl Tally {
    /// Nothing yet.
    pub fn new() -> Tally {
        Tally {
            commits: 0,
            last_commit: 0,
            sign_ins: 0,
            registrations: 0,
            sign_in_refusals: [0; STEPS],
            registration_refusals: [0; STEPS],
            lost_log_lines: 0,
        }
    }

    /// Counts lines of the log that could not be written.
    pub fn note_lost(&mut self, lines: u64) {
        self.lost_log_lines = self.lost_log_lines.saturating_add(lines);
    }

    /// Counts a commit that took this many microseconds.
    pub(crate) fn note_commit(&mut self, microseconds: u64) {
        self.commits = self.commits.saturating_add(1);
        self.last_commit = microseconds;
    }

    /// Counts answers.
    pub(crate) fn note_all(&mut self, answers: &[Answered]) {
        for answered in answers {
            self.note(&answered.answer);
        }
    }

    /// Counts an answer.
    fn note(&mut self, answer: &Answer) {
        match answer {
            Answer::SignedIn(..) => self.sign_ins = self.sign_ins.saturating_add(1),
            Answer::Registered(..) => self.registrations = self.registrations.saturating_add(1),
            Answer::SignInRefused(step, _) => {
                note_step(&mut self.sign_in_refusals, step.number());
            }
            Answer::RegistrationRefused(step, _) => {
                note_step(&mut self.registration_refusals, step.number());
            }
            _ => {}
        }
    }
}
