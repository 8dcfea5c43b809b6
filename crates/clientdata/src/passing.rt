//! Values that nobody asks for, passed over in memory that does not grow with their nesting.

ghost use Rattle.std.specs.Prelude.{◌≡◌, ◌<◌, ◌≤◌, [], ◌∷◌, ◌++◌, ℕ, List, None, Some, IsTrue, MatchResult, OnOk, OnErr, is_some, length, option_map, slice_index, ◌==◌, true, false};
ghost use Rattle.json.specs.Reads.{token_of};
ghost use Rattle.json.specs.Token.{Token as SpecToken};
ghost use Rattle.serde_json.specs.Read.{number_of, number_from};
ghost use Rattle.clientdata.specs.Passing.{GoesOn, all_closed, closed, passed, resumed};

use fast_float::Numeral;
use json::{Invalid, Reader, Token};
use std::marker::Model;

/// How deep objects and arrays may nest, as `serde_json` has it.
pub(crate) const MAX_DEPTH: usize = 127;

/// The objects and arrays that are open, the outermost first. A contract sees a list: true for an object.
#[derive(Drop)]
struct Open {
    are_objects: [bool; MAX_DEPTH],
    depth: usize,
}

impl Model for Open {
    ghost use Rattle.std.specs.Prelude.{◌≤◌, Bool, List, take};

    ghost Value = { List Bool };

    ghost view = { λ o. take o.depth o.are_objects };

    ghost invariant = { λ o. o.depth ≤ 127 };
}

impl Open {
    fn none() -> Open
        ensures { result ≡ [] }
    {
        Open {
            are_objects: [false; MAX_DEPTH],
            depth: 0,
        }
    }

    fn depth(&self) -> usize
        ensures { result ≡ length self.now }
    {
        self.depth
    }

    /// Opens another one inside.
    fn push(&mut self, is_object: bool)
        requires { length self.old < 127 }
        ensures { self.new ≡ self.old ++ is_object ∷ [] }
    {
        self.are_objects[self.depth] = is_object;
        self.depth += 1;
    }

    /// Closes the innermost one.
    fn pop(&mut self) -> bool
        requires { 0 < length self.old }
        ensures { self.old ≡ self.new ++ result ∷ [] }
    {
        self.depth -= 1;
        self.are_objects[self.depth]
    }
}

/// Whether a numeral, without its sign, is in the range of `serde_json`: a 64-bit float holds it.
fn is_in_range(numeral: &Numeral<'_>, is_negative: bool) -> bool
    ensures { result ≡ is_some (number_from is_negative numeral.now) }
{
    let is_integer = if is_negative {
        match numeral.to_i64(true) {
            Some(n) => n < 0,
            None => false,
        }
    } else {
        numeral.to_u64().is_some()
    };
    is_integer || numeral.to_float::<f64>(is_negative).is_finite()
}

/// Whether the bytes begin with a minus sign.
fn has_minus(bytes: &[u8]) -> bool
    ensures value { result ≡ (slice_index bytes.now 0 == 45) }
    ensures some { IsTrue result → 0 < length bytes.now }
{
    !bytes.is_empty() && bytes[0] == b'-'
}

/// Whether a number's text is of a value that is taken.
fn is_taken(text: &str) -> bool
    ensures { result ≡ is_some (number_of text.now) }
{
    let bytes = text.as_bytes();
    if has_minus(bytes) {
        is_in_range(&Numeral::scan(&bytes[1..]), true)
    } else {
        is_in_range(&Numeral::scan(bytes), false)
    }
}

/// Opens an object or array inside of what is open, unless it would nest too deep.
fn enter(around: &mut Open, is_object: bool, depth: usize) -> Result<(), Invalid>
    requires { (length around.old ≤ depth) × (depth ≤ 127) }
    ensures opened { OnOk result ((length around.old < depth) × (around.new ≡ around.old ++ is_object ∷ [])) }
    ensures too_deep { OnErr result (length around.old ≡ depth) }
{
    if around.depth() == depth {
        return Err(Invalid);
    }
    around.push(is_object);
    Ok(())
}

/// Begins the value of a token inside of what is open: one that is whole is passed over, an object or array is opened.
fn begin(token: Token<'_>, around: &mut Open, depth: usize) -> Result<(), Invalid>
    requires { (length around.old ≤ depth) × (depth ≤ 127) }
    ensures left { MatchResult result
        (λ _. (ts : List SpecToken) → resumed depth around.old (token_of token.entry ∷ ts) ≡ all_closed depth around.new ts)
        (λ _. (ts : List SpecToken) → resumed depth around.old (token_of token.entry ∷ ts) ≡ None) }
    ensures within { OnOk result (length around.new ≤ depth) }
{
    match token {
        Token::String(_) => Ok(()),
        Token::Number(text) => if is_taken(text) { Ok(()) } else { Err(Invalid) },
        Token::Bool(_) => Ok(()),
        Token::Null => Ok(()),
        Token::BeginObject => enter(around, true, depth),
        Token::BeginArray => enter(around, false, depth),
        Token::EndObject => Err(Invalid),
        Token::EndArray => Err(Invalid),
        Token::Key(_) => Err(Invalid),
        Token::Bad => Err(Invalid),
    }
}

/// The token with which the next member's value begins; none where the object ended.
fn next_member<'a>(reader: &mut Reader<'a>) -> Result<Option<Token<'a>>, Invalid>
    ensures left { (depth : ℕ) → MatchResult result
        (λ token. GoesOn true depth (option_map token_of token) reader.old reader.new)
        (λ _. closed true depth reader.old ≡ None) }
    ensures shorter { OnOk result (length reader.new < length reader.old) }
{
    match reader.next_key() {
        Err(_) => Err(Invalid),
        Ok(None) => Ok(None),
        Ok(Some(_)) => match reader.next() {
            Some(token) => Ok(Some(token)),
            None => Err(Invalid),
        },
    }
}

/// The token with which the next item begins; none where the array ended.
fn next_item<'a>(reader: &mut Reader<'a>) -> Result<Option<Token<'a>>, Invalid>
    ensures left { (depth : ℕ) → MatchResult result
        (λ token. GoesOn false depth (option_map token_of token) reader.old reader.new)
        (λ _. closed false depth reader.old ≡ None) }
    ensures shorter { OnOk result (length reader.new < length reader.old) }
{
    if reader.take_end_array() {
        return Ok(None);
    }
    match reader.next() {
        Some(token) => Ok(Some(token)),
        None => Err(Invalid),
    }
}

/// The token with which the next value of an object or an array begins; none where it ended.
fn next_value<'a>(is_object: bool, reader: &mut Reader<'a>) -> Result<Option<Token<'a>>, Invalid>
    ensures left { (depth : ℕ) → MatchResult result
        (λ token. GoesOn is_object depth (option_map token_of token) reader.old reader.new)
        (λ _. closed is_object depth reader.old ≡ None) }
    ensures shorter { OnOk result (length reader.new < length reader.old) }
{
    if is_object {
        next_member(reader)
    } else {
        next_item(reader)
    }
}

/// Passes over the next value inside of what is open, as far as its first token, or closes the innermost one.
fn step(around: &mut Open, reader: &mut Reader<'_>, depth: usize) -> Result<(), Invalid>
    requires { (0 < length around.old) × (length around.old ≤ depth) × (depth ≤ 127) }
    ensures left { MatchResult result (λ _. all_closed depth around.old reader.old ≡ all_closed depth around.new reader.new)
        (λ _. all_closed depth around.old reader.old ≡ None) }
    ensures within { OnOk result (length around.new ≤ depth) }
    ensures shorter { OnOk result (length reader.new < length reader.old) }
{
    let is_object = around.pop();
    match next_value(is_object, reader) {
        Err(_) => Err(Invalid),
        Ok(None) => Ok(()),
        Ok(Some(token)) => {
            around.push(is_object);
            begin(token, around, depth)
        }
    }
}

/// Passes over what is left of the value that begins with a token.
pub(crate) fn pass_over(
    token: Token<'_>,
    reader: &mut Reader<'_>,
    depth: usize,
) -> Result<(), Invalid>
    requires { depth ≤ 127 }
    ensures left { MatchResult result (λ _. passed depth (token_of token.entry ∷ reader.old) ≡ Some reader.new)
        (λ _. passed depth (token_of token.entry ∷ reader.old) ≡ None) }
    ensures shorter { OnOk result (length reader.new ≤ length reader.old) }
{
    let mut around = Open::none();
    begin(token, &mut around, depth)?;
    while around.depth() > 0 {
        step(&mut around, reader, depth)?;
    }
    Ok(())
}
