//! How deep a line nests, before it is read.

ghost use Rattle.std.specs.Prelude.{◌≡◌, ◌↔◌, ◌≤◌, IsTrue};
ghost use Rattle.json_lines.specs.Nesting.{Nests, next};

/// How deep the objects and arrays of a line may nest.
pub const MAX_NESTING: usize = 32;

/// What the next byte of a JSON text is part of.
#[derive(Clone, Copy, PartialEq, Eq, Drop)]
pub enum Within {
    /// No text.
    Outside,
    /// A text between quotation marks.
    Text,
    /// What stands after a backslash in a text.
    Escape,
}

/// A place in a JSON text: what it is within, and how many brackets are open before it.
#[derive(Clone, Copy, Drop)]
pub struct Place {
    pub within: Within,
    pub depth: usize,
}

/// The place after one more byte.
fn after(place: Place, byte: u8) -> Place
    requires { place.depth ≤ 32 }
    ensures { result ≡ next place byte }
{
    match place.within {
        Within::Text => Place {
            within: match byte {
                b'"' => Within::Outside,
                b'\\' => Within::Escape,
                _ => Within::Text,
            },
            depth: place.depth,
        },
        Within::Escape => Place {
            within: Within::Text,
            depth: place.depth,
        },
        Within::Outside => match byte {
            b'"' => Place {
                within: Within::Text,
                depth: place.depth,
            },
            b'{' | b'[' => Place {
                within: Within::Outside,
                depth: place.depth + 1,
            },
            b'}' | b']' => Place {
                within: Within::Outside,
                depth: place.depth.saturating_sub(1),
            },
            _ => place,
        },
    }
}

/// Whether the objects and arrays of a JSON text nest at most [`MAX_NESTING`] deep (RFC 8259, section 2), by its brackets
/// that stand in no text. So the stack that its reading takes is bounded. Nothing else is asked of the bytes.
pub fn nests_within(text: &[u8]) -> bool
    ensures { IsTrue result ↔ Nests 32 text.now }
{
    let mut place = Place {
        within: Within::Outside,
        depth: 0,
    };
    for byte in text {
        place = after(place, *byte);
        if place.depth > MAX_NESTING {
            return false;
        }
    }
    true
}
