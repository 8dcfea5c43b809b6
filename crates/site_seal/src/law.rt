//! Laws of sealed texts.

ghost use Rattle.std.specs.Prelude.{◌≡◌, ◌≤◌, ◌↔◌, ℕ, List, length};
ghost use Rattle.verification.specs.Records.{Credential, ExpectedSignIn};
ghost use Rattle.verification.specs.SignIn.{JudgedSignIn, PassesSignInStep};
ghost use Rattle.verification.specs.declared.refusal.SignInRefusal.{SignInRefusal};
ghost use Rattle.site_seal.specs.Judged.{TellsApart, judged_by};
ghost use Rattle.site_seal.specs.Seal.{IsExpectedOf, IsSession, Session, sealed_sign_in, sealed_text};

use cose::Verifier;

/// The same bytes are the sealed text of one session, whatever the keys and the rp ids.
pub fn one_text()
    ensures { (key rp_id_hash other_key other_rp_id_hash : List ℕ) (s t : Session) → IsSession s → IsSession t
        → sealed_text key rp_id_hash s ≡ sealed_text other_key other_rp_id_hash t → s ≡ t }
{}

/// A response passes a step of a sign-in by what [`expected`](crate::OpenedSignIn::expected) gives exactly where it passes
/// it by the session that was sealed, if the hashes tell that session's user and ids from the credential's. It is so for
/// each verifier.
pub fn same_steps<V: Verifier>()
    ensures { (verifier : V) (key : List ℕ) (e f : ExpectedSignIn) (x : JudgedSignIn) (c : Credential) (step : SignInRefusal)
        → 1 ≤ length c.user → 1 ≤ length x.response.credential → TellsApart key e c.user x.response.credential
        → IsExpectedOf key (sealed_sign_in key e) c.user x.response.credential f
        → PassesSignInStep (V.valid verifier) (judged_by x e c) step
        ↔ PassesSignInStep (V.valid verifier) (judged_by x f c) step }
{}
