//! Floats of CBOR (RFC 8949, section 3.3).

use std::alloc::AllocError;
use std::fmt::Write;
use std::num::nearest_u64_to_f64;

/// How many bits of a float are its exponent and its fraction (IEEE 754).
#[derive(Clone, Copy, Drop)]
struct Widths {
    exponent: u32,
    fraction: u32,
}

/// The widths of a float of this many bytes.
fn widths_of(size: usize) -> Widths {
    match size {
        2 => Widths {
            exponent: 5,
            fraction: 10,
        },
        4 => Widths {
            exponent: 8,
            fraction: 23,
        },
        _ => Widths {
            exponent: 11,
            fraction: 52,
        },
    }
}

/// The low bits of a number.
fn low_bits(number: u64, count: u32) -> u64 {
    number & !(u64::MAX << (count & 63))
}

/// A number times two to this power.
fn scaled(number: u64, power: i32) -> f64 {
    let mut value = nearest_u64_to_f64(number);
    let factor = if power < 0 { 0.5 } else { 2.0 };
    for _ in 0..power.unsigned_abs() {
        value *= factor;
    }
    value
}

/// Writes the magnitude of a float that is a number.
fn put_number(
    exponent: u64,
    fraction: u64,
    widths: Widths,
    out: &mut String,
) -> Result<(), AllocError> {
    let hidden = if exponent == 0 {
        0
    } else {
        1u64 << (widths.fraction & 63)
    };
    let bias = (1i32 << (widths.exponent.wrapping_sub(1) & 15)) - 1;
    let raised = i32::try_from(exponent.max(1)).unwrap_or(0);
    let power = raised
        .saturating_sub(bias)
        .saturating_sub(i32::try_from(widths.fraction).unwrap_or(0));
    let value = scaled(hidden | fraction, power);
    write!(out, "{value}")
}

/// Appends the float whose bytes, 2, 4 or 8 of them, are this number.
pub(crate) fn write_float(number: u64, size: usize, out: &mut String) -> Result<(), AllocError> {
    let widths = widths_of(size);
    let fraction = low_bits(number, widths.fraction);
    let exponent = low_bits(number >> (widths.fraction & 63), widths.exponent);
    let is_negative = low_bits(
        number >> (widths.fraction.wrapping_add(widths.exponent) & 63),
        1,
    ) == 1;
    let is_special = exponent == low_bits(u64::MAX, widths.exponent);
    if is_special && fraction != 0 {
        return out.push_str("NaN");
    }
    if is_negative && exponent | fraction != 0 {
        out.push('-')?;
    }
    if is_special {
        return out.push_str("Infinity");
    }
    put_number(exponent, fraction, widths, out)
}
