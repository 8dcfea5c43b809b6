//! A registration, a sign-in and a restart, each call made with two sites and two security keys alike. Where a call of the
//! first has no memory, it says so and nothing has changed: the site saves to the same bytes and the authenticator answers as
//! the other one, and the same call made again is done. `tests/programs/allocations` refuses each allocation in turn.

use crate::{CONSENT, End, HERE, POLICY, USER, WORDS, packet, saved, site_of};
use ceremony::{register, sign_in};
use client::{
    CreationOptions, Outgoing, RequestError, RequestOptions, assertion_request, creation_request,
};
use cose::{Alg, BenchScheme};
use hidframe::Packet;
use security_key::{Act, ServeError};
use site::{BeginError, Error, Site, Started};
use std::alloc::Global;
use std::test::Fail;

/// What a call answers.
#[derive(Clone, Copy, PartialEq, Eq)]
enum Answer {
    Done,
    Memory,
    Wrong,
}

/// A site, an authenticator's end with channel 1, and how far they are.
#[derive(Drop)]
struct Ceremony {
    site: Site,
    end: End,
    session: u64,
    challenge: [u8; 32],
    client_data: Vec<u8>,
    request: Vec<Packet>,
    taken: usize,
    sent: Vec<Packet>,
    saved: Vec<u8>,
    /// The call that had no memory.
    refused: &'static str,
}

/// What the answer of a verdict on packets says.
fn told<T: Drop, W: Drop>(answer: Result<T, ceremony::Error<W>>) -> Answer {
    match answer {
        Ok(_) => Answer::Done,
        Err(ceremony::Error::Memory) => Answer::Memory,
        Err(_) => Answer::Wrong,
    }
}

impl Ceremony {
    fn new(alloc: Global) -> Option<Ceremony> {
        let mut end = End::new(alloc)?;
        let init = packet(alloc, &[], "ffffffff8600080102030405060708").ok()?;
        end.act(Act::Packet(init), &mut Vec::new(alloc)).ok()?;
        Some(Ceremony {
            site: site_of(alloc, &HERE)?,
            end,
            session: 0,
            challenge: [0; 32],
            client_data: Vec::new(alloc),
            request: Vec::new(alloc),
            taken: 0,
            sent: Vec::new(alloc),
            saved: Vec::new(alloc),
            refused: "nowhere",
        })
    }

    fn begun(&mut self, answer: Result<Started, BeginError>) -> Answer {
        match answer {
            Ok(started) => {
                self.session = started.session;
                let challenge = started.challenge;
                self.challenge = challenge;
                Answer::Done
            }
            Err(BeginError::Memory) => Answer::Memory,
            Err(_) => Answer::Wrong,
        }
    }

    fn requested(&mut self, alloc: Global, answer: Result<Outgoing, RequestError>) -> Answer {
        match answer {
            Ok(outgoing) => {
                self.client_data = outgoing.client_data;
                self.request = outgoing.packets;
                self.taken = 0;
                self.sent = Vec::new(alloc);
                Answer::Done
            }
            Err(RequestError::Memory) => Answer::Memory,
            Err(_) => Answer::Wrong,
        }
    }

    fn create(&mut self, alloc: Global) -> Answer {
        let options = CreationOptions {
            challenge: &self.challenge,
            rp_id: HERE.id,
            rp_name: "Example",
            user_id: USER,
            user_name: "seventeen",
            display_name: "User Seventeen",
            algs: &[Alg::EdDsa],
            exclude: &[b"another"],
            rk: true,
            uv: false,
        };
        let answer = creation_request(alloc, HERE.origin, &options, 1);
        self.requested(alloc, answer)
    }

    fn assert(&mut self, alloc: Global) -> Answer {
        let options = RequestOptions {
            challenge: &self.challenge,
            rp_id: HERE.id,
            allow: &[&[5; 32]],
            uv: false,
        };
        let answer = assertion_request(alloc, HERE.origin, &options, 1);
        self.requested(alloc, answer)
    }

    /// Gives the device the packets of the request that it has not taken.
    fn take(&mut self) -> Answer {
        for place in self.taken..self.request.len() {
            let Some(packet) = self.request.get(place).copied() else {
                return Answer::Wrong;
            };
            match self.end.act(Act::Packet(packet), &mut self.sent) {
                Ok(()) => self.taken = place.saturating_add(1),
                Err(ServeError::Memory) => return Answer::Memory,
                Err(_) => return Answer::Wrong,
            }
        }
        Answer::Done
    }

    fn decide(&mut self) -> Answer {
        match self.end.act(Act::Decide(CONSENT, WORDS), &mut self.sent) {
            Ok(()) => Answer::Done,
            Err(ServeError::Memory) => Answer::Memory,
            Err(_) => Answer::Wrong,
        }
    }

    fn register(&mut self, alloc: Global) -> Answer {
        let (site, session) = (&mut self.site, self.session);
        let data = self.client_data.as_slice();
        told(register(alloc, site, &BenchScheme, session, 1, data, &self.sent))
    }

    fn sign_in(&mut self, alloc: Global) -> Answer {
        let (site, session) = (&mut self.site, self.session);
        let data = self.client_data.as_slice();
        told(sign_in(alloc, site, &BenchScheme, session, 1, data, &self.sent))
    }

    fn save(&mut self, alloc: Global) -> Answer {
        self.saved = Vec::new(alloc);
        match self.site.save(&mut self.saved) {
            Ok(()) => Answer::Done,
            Err(_) if self.saved.is_empty() => Answer::Memory,
            Err(_) => Answer::Wrong,
        }
    }

    fn load(&mut self, alloc: Global) -> Answer {
        match Site::load(alloc, &self.saved, HERE.id, &[HERE.origin], POLICY) {
            Ok(site) => {
                self.site = site;
                Answer::Done
            }
            Err(Error::Memory) => Answer::Memory,
            Err(_) => Answer::Wrong,
        }
    }

    /// Makes a call.
    fn call(&mut self, alloc: Global, name: &str) -> Answer {
        match name {
            "begin registration" => {
                let answer = self
                    .site
                    .begin_registration(USER, &[Alg::EdDsa], false, [1; 24]);
                self.begun(answer)
            }
            "begin sign-in" => {
                let answer = self
                    .site
                    .begin_sign_in(Some(USER), &[&[5; 32]], false, [2; 24]);
                self.begun(answer)
            }
            "create" => self.create(alloc),
            "assert" => self.assert(alloc),
            "take" => self.take(),
            "decide" => self.decide(),
            "register" => self.register(alloc),
            "sign in" => self.sign_in(alloc),
            "save" => self.save(alloc),
            "load" => self.load(alloc),
            _ => Answer::Wrong,
        }
    }

    /// What the authenticator answers on channel 1, asked again where it had no memory.
    fn answer(&mut self, request: &[u8]) -> Option<Vec<u8>> {
        let authenticator = &mut self.end.authenticator;
        match authenticator.handle(&BenchScheme, 1, request, CONSENT, WORDS) {
            Ok(reply) => Some(reply),
            Err(_) => authenticator
                .handle(&BenchScheme, 1, request, CONSENT, WORDS)
                .ok(),
        }
    }

    /// Whether both sites save the same, and both authenticators answer getInfo and a getAssertion alike.
    fn is_like(&mut self, alloc: Global, other: &mut Ceremony) -> bool {
        is_same(saved(alloc, &self.site), saved(alloc, &other.site))
            && is_same(self.answer(&[4]), other.answer(&[4]))
            && is_same(self.answer(ASSERTION), other.answer(ASSERTION))
    }
}

/// A getAssertion for `example.org` and a hash of 32 bytes 22, with neither list nor options.
const ASSERTION: &[u8] =
    b"\x02\xa2\x01\x6bexample.org\x02\x58\x20\x22\x22\x22\x22\x22\x22\x22\x22\x22\x22\x22\x22\x22\x22\x22\x22\x22\x22\x22\x22\x22\x22\x22\x22\x22\x22\
        \x22\x22\x22\x22\x22\x22";

/// Whether both are there and the same.
fn is_same(one: Option<Vec<u8>>, other: Option<Vec<u8>>) -> bool {
    match (&one, &other) {
        (Some(one), Some(other)) => one.as_slice() == other.as_slice(),
        _ => false,
    }
}

/// Makes a call at both. Where the first had no memory, that is noted: nothing had changed, and again it was done.
fn make(alloc: Global, first: &mut Ceremony, second: &mut Ceremony, name: &'static str) -> bool {
    match first.call(alloc, name) {
        Answer::Done => {}
        Answer::Memory => {
            first.refused = name;
            if !(first.is_like(alloc, second) && first.call(alloc, name) == Answer::Done) {
                return false;
            }
        }
        Answer::Wrong => return false,
    }
    match second.call(alloc, name) {
        Answer::Done => true,
        Answer::Memory => second.call(alloc, name) == Answer::Done,
        Answer::Wrong => false,
    }
}

fn make_registration(alloc: Global, first: &mut Ceremony, second: &mut Ceremony) -> bool {
    make(alloc, first, second, "begin registration")
        && make(alloc, first, second, "create")
        && make(alloc, first, second, "take")
        && make(alloc, first, second, "decide")
        && make(alloc, first, second, "register")
}

fn make_sign_in(alloc: Global, first: &mut Ceremony, second: &mut Ceremony) -> bool {
    make(alloc, first, second, "begin sign-in")
        && make(alloc, first, second, "assert")
        && make(alloc, first, second, "take")
        && make(alloc, first, second, "decide")
        && make(alloc, first, second, "sign in")
}

fn make_restart(alloc: Global, first: &mut Ceremony, second: &mut Ceremony) -> bool {
    make(alloc, first, second, "save") && make(alloc, first, second, "load")
}

/// The call that had no memory, if one had none, where all came out as it is to be.
fn refused(alloc: Global, first: &mut Ceremony, second: &mut Ceremony) -> &'static str {
    let is_made = make_registration(alloc, first, second)
        && make_restart(alloc, first, second)
        && make_sign_in(alloc, first, second)
        && make_restart(alloc, first, second);
    if is_made && (first.is_like(alloc, second) || first.is_like(alloc, second)) {
        first.refused
    } else {
        "wrong"
    }
}

/// The call of two new ceremonies that had no memory, if one had none.
fn refused_anew(alloc: Global) -> &'static str {
    let Some(mut first) = Ceremony::new(alloc) else {
        return "elsewhere";
    };
    match Ceremony::new(alloc) {
        Some(mut second) => refused(alloc, &mut first, &mut second),
        None => "elsewhere",
    }
}

#[test]
fn each_call_again(rt: HostRuntime) -> Result<(), Fail> {
    let refused = refused_anew(rt.alloc());
    let _ = rt.println(refused);
    assert!(rt; refused != "wrong");
    Ok(())
}
