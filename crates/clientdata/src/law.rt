//! Laws of client data.

ghost use Rattle.std.specs.Prelude.{◌≡◌, ℕ, Bool, List, length, IsUtf8, Some};
ghost use Rattle.base64.specs.GeneralPurpose.{IsBytes};
ghost use Rattle.clientdata.specs.Reading.{crossing_of, seen_of};
ghost use Rattle.clientdata.specs.Serialised.{challenge_text_of, hash_of, type_of};
ghost use Rattle.clientdata.specs.Serialised.{client_data_front, client_data_text};
ghost use Rattle.clientdata.specs.Verified.{IsVerified};
ghost use Rattle.clientdata.specs.declared.record.CeremonyType.{CeremonyType};
ghost use Rattle.clientdata.specs.declared.seen.Binding.TheVariants.{Absent};
ghost use Rattle.clientdata.specs.declared.seen.TopOrigin.TheVariants as TopOrigin;

/// A hash of client data has 32 bytes.
pub fn digest_lengths()
    ensures { (m : List ℕ) → length (hash_of m) ≡ 32 }
{}

/// Two challenges with one text are one challenge.
pub fn challenge_texts()
    ensures { (a b : List ℕ) → IsBytes a → IsBytes b
        → challenge_text_of a ≡ challenge_text_of b → a ≡ b }
{}

/// A serialised text is verified against its own record. It is read as its own type, challenge text
/// origin and `crossOrigin`, without token binding and `topOrigin`, whatever the origin. Two records with one text are one.
pub fn serialised_texts()
    ensures verified { (kind : CeremonyType) (challenge origin : List ℕ) (cross : Bool)
        → IsVerified (client_data_text kind challenge origin cross)
        (client_data_front kind challenge origin cross) }
    ensures read { (kind : CeremonyType) (challenge origin : List ℕ) (cross : Bool) → IsUtf8 origin
        → seen_of (client_data_text kind challenge origin cross)
        ≡ Some (record {
          kind = type_of kind;
          challenge = challenge_text_of challenge;
          origin = origin;
          binding = Absent;
          cross_origin = crossing_of cross;
          top_origin = TopOrigin.Absent;
        }) }
    ensures one_record { (k l : CeremonyType) (a b o p : List ℕ) (x y : Bool)
        → IsBytes a → IsBytes b → IsUtf8 o → IsUtf8 p
        → client_data_text k a o x ≡ client_data_text l b p y
        → (k ≡ l) × (a ≡ b) × (o ≡ p) × (x ≡ y) }
{}
