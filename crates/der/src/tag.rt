//! Tags.

ghost use Rattle.std.specs.Prelude.{◌≡◌, ◌<◌};
ghost use Rattle.der.specs.Encoding.{class_number, identifier};
ghost use Rattle.der.specs.Reading.{class_of, tag_of};
ghost use Rattle.der.specs.declared.tag.Class.TheVariants as classes;

/// The class of a tag (X.690, 8.1.2.2).
#[derive(Clone, Copy, Debug, PartialEq, Eq, Drop)]
pub enum Class {
    Universal,
    Application,
    ContextSpecific,
    Private,
}

/// The tag of an element, and whether the content is made of elements.
#[derive(Clone, Copy, Debug, PartialEq, Eq, Drop)]
pub struct Tag {
    pub class: Class,
    pub constructed: bool,
    /// The number, at most 30.
    pub number: u8,
}

impl Class {
    /// The two high bits of the identifier octet.
    fn number(self) -> u8
        ensures { result ≡ class_number self }
    {
        match self {
            Class::Universal => 0,
            Class::Application => 1,
            Class::ContextSpecific => 2,
            Class::Private => 3,
        }
    }

    /// The class of these two bits.
    fn of(number: u8) -> Class
        ensures { result ≡ class_of number }
    {
        match number {
            0 => Class::Universal,
            1 => Class::Application,
            2 => Class::ContextSpecific,
            _ => Class::Private,
        }
    }
}

impl Tag {
    /// A tag of the class universal (X.680, 8.6).
    pub const fn universal(number: u8, constructed: bool) -> Tag
        ensures { result ≡ record { class = classes.Universal; constructed = constructed; number = number } }
    {
        Tag {
            class: Class::Universal,
            constructed,
            number,
        }
    }

    /// The identifier octet.
    pub fn identifier(self) -> u8
        requires { self.number < 31 }
        ensures { result ≡ identifier self }
    {
        64 * self.class.number() + if self.constructed { 32 } else { 0 } + self.number
    }

    /// The tag that has this identifier octet. Its number is 31 where further octets have it (X.690, 8.1.2.4), which no
    /// element that is read here has.
    pub fn of(octet: u8) -> Tag
        ensures { result ≡ tag_of octet }
    {
        Tag {
            class: Class::of(octet / 64),
            constructed: octet / 32 % 2 == 1,
            number: octet % 32,
        }
    }
}
