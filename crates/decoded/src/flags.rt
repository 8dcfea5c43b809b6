//! The flags of authenticator data (WebAuthn Level 3, section 6.1).

use std::alloc::{AllocError, Global};
use std::fmt::Write;

/// The name of each bit, the lowest first, and what it means if it is set.
const FLAGS: [(&str, &str); 8] = [
    ("UP", "user present"),
    ("RFU1", "reserved"),
    ("UV", "user verified"),
    ("BE", "eligible for backup"),
    ("BS", "backed up now"),
    ("RFU2", "reserved"),
    ("AT", "a credential is attested"),
    ("ED", "extensions follow"),
];

/// Whether the lowest bit of a byte is set.
fn is_odd(byte: u8) -> bool {
    byte & 1 == 1
}

/// The names of the flags that are set.
pub fn flag_names(alloc: Global, flags: u8) -> Result<String, AllocError> {
    let mut out = String::new(alloc);
    let mut rest = flags;
    for (name, _) in &FLAGS {
        if is_odd(rest) {
            if !out.is_empty() {
                out.push_str(", ")?;
            }
            out.push_str(name)?;
        }
        rest >>= 1;
    }
    if out.is_empty() {
        out.push_str("none is set")?;
    }
    Ok(out)
}

/// Writes flags as an object.
pub(crate) fn put_flags(alloc: Global, flags: u8, out: &mut String) -> Result<(), AllocError> {
    let names = flag_names(alloc, flags)?;
    write!(
        out,
        "{{\"hex\":\"{flags:02x}\",\"text\":\"{names}\",\"bits\":["
    )?;
    let mut rest = flags;
    let mut comma = "";
    for (name, means) in &FLAGS {
        let set = is_odd(rest);
        write!(
            out,
            "{comma}{{\"name\":\"{name}\",\"means\":\"{means}\",\"set\":{set}}}"
        )?;
        rest >>= 1;
        comma = ",";
    }
    out.push_str("]}")
}
