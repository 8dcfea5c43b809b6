//! The law of the verdict.

ghost use Rattle.std.specs.Prelude.{◌≡◌, ◌≢◌, ◌<◌, ◌^◌, ℕ, List};
ghost use Rattle.std.specs.List.{AllByRecursion};
ghost use Rattle.hidframe.specs.Packets.{IsPacket};
ghost use Rattle.hidframe.specs.declared.Packet.{Packet};
ghost use Rattle.ctap_replies.specs.Replies.{Assertion, Creation};
ghost use Rattle.verification.specs.declared.refusal.SignInRefusal.{SignInRefusal};
ghost use Rattle.verification.specs.declared.refusal.RegistrationRefusal.{RegistrationRefusal};
ghost use Rattle.site.specs.State.{SiteState};
ghost use Rattle.ceremony.specs.SignIn.{sign_in};
ghost use Rattle.ceremony.specs.Registration.{registration};
ghost use Rattle.ceremony.specs.Verdict.{Refused, Succeeds};
ghost use Rattle.ceremony.specs.declared.error.Error.{Error};
ghost use Rattle.ceremony.specs.declared.error.Error.TheVariants as errors;

use cose::Verifier;

/// Packets, a site, a session and client data have one verdict at most, in either ceremony: they are accepted after one
/// number of packets by one reply, or refused for one reason. Running out of memory is no verdict.
pub fn one_verdict<V: Verifier>()
    ensures sign_in_one_acceptance { (verifier : V) (s : SiteState) (session : ℕ) (t : List ℕ) (c : ℕ) (ps : List Packet) (n k : ℕ) (r q : Assertion)
        → Succeeds (sign_in (V.valid verifier) s session t) c ps n r → Succeeds (sign_in (V.valid verifier) s session t) c ps k q
        → (n ≡ k) × (r ≡ q) }
    ensures sign_in_not_both { (verifier : V) (s : SiteState) (session : ℕ) (t : List ℕ) (c : ℕ) (ps : List Packet) (n : ℕ) (r : Assertion)
        (e : Error SignInRefusal)
        → c < 2 ^ 32 → AllByRecursion IsPacket ps → e ≢ errors.Memory
        → Succeeds (sign_in (V.valid verifier) s session t) c ps n r → Refused (sign_in (V.valid verifier) s session t) c ps e → ⊥ }
    ensures sign_in_one_refusal { (verifier : V) (s : SiteState) (session : ℕ) (t : List ℕ) (c : ℕ) (ps : List Packet) (e f : Error SignInRefusal)
        → c < 2 ^ 32 → AllByRecursion IsPacket ps → e ≢ errors.Memory → f ≢ errors.Memory
        → Refused (sign_in (V.valid verifier) s session t) c ps e → Refused (sign_in (V.valid verifier) s session t) c ps f → e ≡ f }
    ensures registration_one_acceptance { (verifier : V) (s : SiteState) (session : ℕ) (t : List ℕ) (c : ℕ) (ps : List Packet) (n k : ℕ) (r q : Creation)
        → Succeeds (registration (V.valid verifier) s session t) c ps n r → Succeeds (registration (V.valid verifier) s session t) c ps k q
        → (n ≡ k) × (r ≡ q) }
    ensures registration_not_both { (verifier : V) (s : SiteState) (session : ℕ) (t : List ℕ) (c : ℕ) (ps : List Packet) (n : ℕ) (r : Creation)
        (e : Error RegistrationRefusal)
        → c < 2 ^ 32 → AllByRecursion IsPacket ps → e ≢ errors.Memory
        → Succeeds (registration (V.valid verifier) s session t) c ps n r → Refused (registration (V.valid verifier) s session t) c ps e → ⊥ }
    ensures registration_one_refusal { (verifier : V) (s : SiteState) (session : ℕ) (t : List ℕ) (c : ℕ) (ps : List Packet) (e f : Error RegistrationRefusal)
        → c < 2 ^ 32 → AllByRecursion IsPacket ps → e ≢ errors.Memory → f ≢ errors.Memory
        → Refused (registration (V.valid verifier) s session t) c ps e → Refused (registration (V.valid verifier) s session t) c ps f → e ≡ f }
{}
