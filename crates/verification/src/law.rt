//! Laws of the steps.

ghost use Rattle.verification.specs.Differences.{RegistrationsDiffer, SignInsDiffer};
ghost use Rattle.verification.specs.Registration.{JudgedRegistration};
ghost use Rattle.verification.specs.SignIn.{JudgedSignIn};
ghost use Rattle.verification.specs.declared.refusal.RegistrationRefusal.{RegistrationRefusal};
ghost use Rattle.verification.specs.declared.refusal.SignInRefusal.{SignInRefusal};

use cose::Verifier;

/// What Level 3 asks otherwise than the open profile, of each step, in both directions. It is so for each verifier.
pub fn profiles<V: Verifier>()
    ensures sign_ins { (verifier : V) (x : JudgedSignIn) (step : SignInRefusal) → SignInsDiffer (V.valid verifier) x step }
    ensures registrations { (verifier : V) (x : JudgedRegistration) (step : RegistrationRefusal) → RegistrationsDiffer (V.valid verifier) x step }
{}
