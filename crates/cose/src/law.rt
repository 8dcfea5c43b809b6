//! Laws of the keys' values.

ghost use Rattle.std.specs.Prelude.{◌≡◌, ◌≢◌, ◌↔◌, ◌≤◌, ◌-◌, ◌%◌, ◌∷◌, [], ℕ, List, Contains, length, slice_index};
ghost use Rattle.ccbor.specs.Canon.{Canon, spelling};
ghost use Rattle.ccbor.specs.Item.{Item};
ghost use Rattle.cose.specs.Keys.{IsKey, KeyOf, item_of, encoded_length};
ghost use Rattle.cose.specs.Rsa.{IsExponent, IsModulus};
ghost use Rattle.cose.specs.declared.key.CoseKey.{CoseKey};

/// A key has one value, and a value is that of one key at most.
pub fn one_key_each()
    ensures one_key { (k l : CoseKey) (v : Item) → KeyOf k v → KeyOf l v → k ≡ l }
    ensures one_value { (k : CoseKey) (v w : Item) → KeyOf k v → KeyOf k w → v ≡ w }
{}

/// Each key has an encoding in canonical CBOR: 77 bytes for ES256, 42 for EdDSA, and for RS256 13 more
/// than its modulus and its exponent have.
pub fn sizes_of_keys()
    ensures encoded { (k : CoseKey) → IsKey k → Canon (item_of k) (spelling (item_of k)) }
    ensures sizes { (k : CoseKey) → IsKey k → length (spelling (item_of k)) ≡ encoded_length k }
{}

/// A modulus has 2,048, 3,072 or 4,096 bits and an exponent 1 to 4 bytes: exactly these are an RSA key's.
pub fn sizes_of_rsa_keys()
    ensures moduli { (n : List ℕ) → IsModulus n
        ↔ (Contains (256 ∷ 384 ∷ 512 ∷ []) (length n) × (128 ≤ slice_index n 0) × (slice_index n (length n - 1) % 2 ≡ 1)) }
    ensures exponents { (e : List ℕ) → IsExponent e
        ↔ (Contains (1 ∷ 2 ∷ 3 ∷ 4 ∷ []) (length e) × (slice_index e 0 ≢ 0) × (slice_index e (length e - 1) % 2 ≡ 1) × (e ≢ 1 ∷ [])) }
{}
