//! The laws of the first line.

ghost use Rattle.std.specs.Prelude.{◌≡◌, ◌⊎◌, ◌↔◌, ◌++◌, List, Bool, true};
ghost use Rattle.refusal_order.specs.Lines.{Each, NoneOf, First, FirstFailing, first_true};

/// A line, of which a property holds or does not: of a refusal that it applies, of a step that it is
/// passed.
pub trait Line {
    ghost holds: { Self → Type 0 };
}

/// At most one line is the first; there is none exactly where the property holds of no line; and none
/// fails first where it holds of each.
pub fn one_first_line<L: Line>()
    ensures one { (lines : List L) (x y : L) → First L.holds lines x → First L.holds lines y → x ≡ y }
    ensures none { (lines : List L) → NoneOf L.holds lines ↔ ((x : L) → First L.holds lines x → ⊥) }
    ensures one_failing { (lines : List L) (x y : L)
        → FirstFailing L.holds lines x → FirstFailing L.holds lines y → x ≡ y }
    ensures none_failing { (lines : List L) (x : L)
        → Each L.holds lines → FirstFailing L.holds lines x → ⊥ }
{}

/// Of two lists joined the first line is that of the former, or that of the latter where the former has
/// none.
pub fn joined_lines<L: Line>()
    ensures holding { (xs ys : List L) (x : L) → First L.holds (xs ++ ys) x
        ↔ (First L.holds xs x ⊎ (NoneOf L.holds xs × First L.holds ys x)) }
    ensures failing { (xs ys : List L) (x : L) → FirstFailing L.holds (xs ++ ys) x
        ↔ (FirstFailing L.holds xs x ⊎ (Each L.holds xs × FirstFailing L.holds ys x)) }
{}

/// Where each line has a test, what the first line gives whose test is true is what the first line gives
/// of which it holds that the test is true.
pub fn tested_lines<X>()
    ensures { (lines : List (Bool × X)) (x : X) → (first_true lines ≡ Some x)
        ↔ ((line : Bool × X) × First (λ l. l.0 ≡ true) lines line × (line.1 ≡ x)) }
{}
