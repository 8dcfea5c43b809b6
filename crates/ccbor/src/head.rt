//! Heads, read and written: a major type, and an argument in its shortest form (RFC 8949,
//! sections 3 and 4.2.1).

ghost use Rattle.std.specs.Prelude.{◌≡◌, ◌<◌, ◌++◌, OnOk};
ghost use Rattle.std.specs.Int.{w8, w16, w32, w64};
ghost use Rattle.ccbor.specs.Canon.{head};
ghost use Rattle.ccbor.specs.Reading.{Yields, at_least, number_at, argument_at, head_at};
ghost use Rattle.ccbor.specs.Writing.{Grows};

use crate::error::Error;
use byteorder::{BigEndian, ByteOrder};
use std::alloc::AllocError;

/// The major types (RFC 8949, section 3.1).
pub const UNSIGNED: u8 = 0;

pub const NEGATIVE: u8 = 1;

pub const BYTES: u8 = 2;

pub const TEXT: u8 = 3;

pub const ARRAY: u8 = 4;

pub const MAP: u8 = 5;

pub const SIMPLE: u8 = 7;

/// The simple values false and true (RFC 8949, section 3.3).
pub const FALSE: u8 = 20;

pub const TRUE: u8 = 21;

/// The least info that is not the argument itself.
const IN_ONE_BYTE: u8 = 24;

const IN_TWO_BYTES: u8 = 25;

const IN_FOUR_BYTES: u8 = 26;

const IN_EIGHT_BYTES: u8 = 27;

/// A head's major type and argument.
#[derive(Clone, Copy)]
pub struct Head {
    pub major: u8,
    pub argument: u64,
}

/// The number, if it is no less than `least`, and what follows it.
fn at_least(least: u64, number: u64, rest: &[u8]) -> Result<(u64, &[u8]), Error>
    ensures { Yields (λ x. (x.0, x.1.now)) result (at_least least number rest.now) }
{
    if number < least {
        return Err(Error::NotCanonical);
    }
    Ok((number, rest))
}

/// The number in the next byte, if it is no less than `least`, and what follows it.
fn u8_at(least: u64, bytes: &[u8]) -> Result<(u64, &[u8]), Error>
    ensures { Yields (λ x. (x.0, x.1.now)) result (number_at w8 least bytes.now) }
{
    match bytes.split_first_chunk() {
        Some((front, rest)) => at_least(least, u64::from(u8::from_be_bytes(*front)), rest),
        None => Err(Error::NotCanonical),
    }
}

/// The number in the next two bytes, if it is no less than `least`, and what follows it.
fn u16_at(least: u64, bytes: &[u8]) -> Result<(u64, &[u8]), Error>
    ensures { Yields (λ x. (x.0, x.1.now)) result (number_at w16 least bytes.now) }
{
    match bytes.split_first_chunk() {
        Some((front, rest)) => at_least(least, u64::from(u16::from_be_bytes(*front)), rest),
        None => Err(Error::NotCanonical),
    }
}

/// The number in the next four bytes, if it is no less than `least`, and what follows it.
fn u32_at(least: u64, bytes: &[u8]) -> Result<(u64, &[u8]), Error>
    ensures { Yields (λ x. (x.0, x.1.now)) result (number_at w32 least bytes.now) }
{
    match bytes.split_first_chunk() {
        Some((front, rest)) => at_least(least, u64::from(u32::from_be_bytes(*front)), rest),
        None => Err(Error::NotCanonical),
    }
}

/// The number in the next eight bytes, if it is no less than `least`, and what follows it.
fn u64_at(least: u64, bytes: &[u8]) -> Result<(u64, &[u8]), Error>
    ensures { Yields (λ x. (x.0, x.1.now)) result (number_at w64 least bytes.now) }
{
    match bytes.split_first_chunk() {
        Some((front, rest)) => at_least(least, u64::from_be_bytes(*front), rest),
        None => Err(Error::NotCanonical),
    }
}

/// The argument of a head with this info, if it has its shortest form, and what follows it.
#[tactic(auto, unfolding(crate::specs::Reading::argument_at))]
fn argument_at(info: u8, bytes: &[u8]) -> Result<(u64, &[u8]), Error>
    ensures { Yields (λ x. (x.0, x.1.now)) result (argument_at info bytes.now) }
{
    match info {
        0..IN_ONE_BYTE => Ok((u64::from(info), bytes)),
        IN_ONE_BYTE => u8_at(24, bytes),
        IN_TWO_BYTES => u16_at(0x100, bytes),
        IN_FOUR_BYTES => u32_at(0x1_0000, bytes),
        IN_EIGHT_BYTES => u64_at(0x1_0000_0000, bytes),
        _ => Err(Error::NotCanonical),
    }
}

/// The head at the front, if its argument has its shortest form, and what follows it.
#[tactic(auto, unfolding(crate::specs::Reading::head_at))]
pub fn head_at(bytes: &[u8]) -> Result<(Head, &[u8]), Error>
    ensures { Yields (λ x. ((x.0.major, x.0.argument), x.1.now)) result (head_at bytes.now) }
{
    let Some((first, rest)) = bytes.split_first() else {
        return Err(Error::NotCanonical);
    };
    let first = *first;
    let (argument, rest) = argument_at(first % 32, rest)?;
    Ok((
        Head {
            major: first / 32,
            argument,
        },
        rest,
    ))
}

/// Appends the head with its argument in the shortest form.
pub fn put_head(major: u8, argument: u64, out: &mut Vec<u8>) -> Result<(), AllocError>
    requires { major < 8 }
    ensures ok { OnOk result (out.new.items ≡ out.old.items ++ head major argument) }
    ensures grows { Grows out.old.items out.new.items }
{
    let high = 32 * major;
    if argument < u64::from(IN_ONE_BYTE) {
        out.push(high + argument as u8)?;
    } else if argument < 0x100 {
        out.push(high + IN_ONE_BYTE)?;
        out.push(argument as u8)?;
    } else if argument < 0x1_0000 {
        let mut bytes = [high + IN_TWO_BYTES, 0, 0];
        BigEndian::write_u16(&mut bytes[1..], argument as u16);
        out.extend_from_slice(&bytes)?;
    } else if argument < 0x1_0000_0000 {
        let mut bytes = [high + IN_FOUR_BYTES, 0, 0, 0, 0];
        BigEndian::write_u32(&mut bytes[1..], argument as u32);
        out.extend_from_slice(&bytes)?;
    } else {
        let mut bytes = [high + IN_EIGHT_BYTES, 0, 0, 0, 0, 0, 0, 0, 0];
        BigEndian::write_u64(&mut bytes[1..], argument);
        out.extend_from_slice(&bytes)?;
    }
    Ok(())
}
