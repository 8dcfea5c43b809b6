//! Laws of canonical encodings.

ghost use Rattle.std.specs.Prelude.{◌≡◌, List, [], ℕ, ◌++◌, IsTrue};
ghost use Rattle.ccbor.specs.Item.{Item, Pairs};
ghost use Rattle.ccbor.specs.Canon.{Canon, before, is_key, spelling};
ghost use Rattle.ccbor.specs.Viewing.{ArePairs, shown, shown_pairs};

/// No encoding begins another, and each is of one value alone: where two encodings with something
/// after each are the same bytes, the encodings are the same, and so are their values. So what is
/// written one after the other is read again, whatever follows it.
pub fn one_spelling()
    ensures { (v w : Item) (a b x y : List ℕ) → Canon v a → Canon w b → a ++ x ≡ b ++ y
        → (v ≡ w) × (a ≡ b) }
{}

/// The empty list of bytes comes before each encoded key. So the definition of which pairs make a
/// map may begin with it, and asks nothing more of the first key.
pub fn nothing_first()
    ensures { (k : Item) → IsTrue (is_key k) → IsTrue (before [] (spelling k)) }
{}

/// The law of views: bytes that encode a value show that value, and bytes that are n pairs of a map
/// show these pairs.
pub fn shown_values()
    ensures value { (x : Item) (bs : List ℕ) → Canon x bs → shown bs ≡ x }
    ensures pairs { (ps : Pairs) (n : ℕ) (bs : List ℕ) → ArePairs ps n bs → shown_pairs (n, bs) ≡ ps }
{}
