//! The tags that certificates have (X.680, 8.6; RFC 5280, appendix A).

use der::{Class, Tag};

pub const BOOLEAN: Tag = Tag {
    class: Class::Universal,
    constructed: false,
    number: 1,
};

pub const INTEGER: Tag = Tag {
    class: Class::Universal,
    constructed: false,
    number: 2,
};

pub const BIT_STRING: Tag = Tag {
    class: Class::Universal,
    constructed: false,
    number: 3,
};

pub const OCTET_STRING: Tag = Tag {
    class: Class::Universal,
    constructed: false,
    number: 4,
};

pub const OBJECT_IDENTIFIER: Tag = Tag {
    class: Class::Universal,
    constructed: false,
    number: 6,
};

pub const SEQUENCE: Tag = Tag {
    class: Class::Universal,
    constructed: true,
    number: 16,
};

pub const SET: Tag = Tag {
    class: Class::Universal,
    constructed: true,
    number: 17,
};

pub const UTC_TIME: Tag = Tag {
    class: Class::Universal,
    constructed: false,
    number: 23,
};

pub const GENERALIZED_TIME: Tag = Tag {
    class: Class::Universal,
    constructed: false,
    number: 24,
};

/// `[0] EXPLICIT`.
pub const EXPLICIT_0: Tag = Tag {
    class: Class::ContextSpecific,
    constructed: true,
    number: 0,
};

/// `[1] EXPLICIT`.
pub const EXPLICIT_1: Tag = Tag {
    class: Class::ContextSpecific,
    constructed: true,
    number: 1,
};

/// `[3] EXPLICIT`.
pub const EXPLICIT_3: Tag = Tag {
    class: Class::ContextSpecific,
    constructed: true,
    number: 3,
};

/// `[1] IMPLICIT` of a bit string.
pub const IMPLICIT_1: Tag = Tag {
    class: Class::ContextSpecific,
    constructed: false,
    number: 1,
};

/// `[2] IMPLICIT` of a bit string.
pub const IMPLICIT_2: Tag = Tag {
    class: Class::ContextSpecific,
    constructed: false,
    number: 2,
};
