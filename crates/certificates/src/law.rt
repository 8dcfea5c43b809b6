//! Laws of certificates and of what they say.

ghost use Rattle.std.specs.Prelude.{◌≡◌, Bool, List, Option, ℕ};
ghost use Rattle.certificates.specs.Extensions.{AreExtensions, ExtensionForm};
ghost use Rattle.certificates.specs.Form.{certificate_octets, Form, IsCertificate};
ghost use Rattle.certificates.specs.Keys.{IsKey, KeyForm};
ghost use Rattle.certificates.specs.Meanings.{IsAaguid, IsConstraints, IsNonce};
ghost use Rattle.certificates.specs.Names.{AttributeForm, IsName};
ghost use Rattle.certificates.specs.Usage.{IsUsage};

/// Bytes are one certificate at most, one name, one list of extensions, one key; and an extension says one thing.
pub fn one_reading()
    ensures certificate { (c d : Form) (bs : List ℕ) → IsCertificate c → IsCertificate d → bs ≡ certificate_octets c → bs ≡ certificate_octets d → c ≡ d }
    ensures name { (ps qs : List (List AttributeForm)) (content : List ℕ) → IsName ps content → IsName qs content → ps ≡ qs }
    ensures extensions { (es fs : List ExtensionForm) (content : List ℕ) → AreExtensions es content → AreExtensions fs content → es ≡ fs }
    ensures key { (k l : KeyForm) (info : List ℕ) → IsKey k info → IsKey l info → k ≡ l }
    ensures aaguid { (a b value : List ℕ) → IsAaguid a value → IsAaguid b value → a ≡ b }
    ensures nonce { (a b value : List ℕ) → IsNonce a value → IsNonce b value → a ≡ b }
    ensures authority { (a b : Bool) (o p : Option (List ℕ)) (value : List ℕ) → IsConstraints a o value → IsConstraints b p value → a ≡ b }
    ensures usage { (ps qs : List (List ℕ)) (value : List ℕ) → IsUsage ps value → IsUsage qs value → ps ≡ qs }
{}
