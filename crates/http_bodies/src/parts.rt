ghost use Rattle.std.specs.Prelude.{◌≡◌};
ghost use Rattle.http_bodies.specs.Parts as coded;

use crate::bounds::{SIZE_LINE_BYTES, TRAILER_BYTES};
use crate::coding::{Line, Part};
use httparse::parse_hex_digit;

// A size line goes on only where the two bytes that end it still fit.
const GOING_ON_BYTES: u64 = SIZE_LINE_BYTES as u64 - 2;

fn after_blank(read: u64, size: u64, byte: u8) -> Part
    ensures { result ≡ coded.after_blank read size byte }
{
    if byte == b'\r' {
        Part::Return(size)
    } else if byte == b' ' || byte == b'\t' {
        if read < GOING_ON_BYTES {
            Part::Blank(read + 1, size)
        } else {
            Part::Bad
        }
    } else if byte == b';' {
        if read < GOING_ON_BYTES {
            Part::Extension(read + 1, size)
        } else {
            Part::Bad
        }
    } else {
        Part::Bad
    }
}

fn after_extension(read: u64, size: u64, byte: u8) -> Part
    ensures { result ≡ coded.after_extension read size byte }
{
    if byte == b'\r' {
        Part::Return(size)
    } else if byte == b'\n' {
        Part::Bad
    } else if read < GOING_ON_BYTES {
        Part::Extension(read + 1, size)
    } else {
        Part::Bad
    }
}

fn after_digits(count: u64, size: u64, byte: u8) -> Part
    ensures { result ≡ coded.after_digits count size byte }
{
    match parse_hex_digit(byte) {
        Some(digit) => {
            if count < 16 && size < 1 << 60 {
                Part::Digits(count + 1, size * 16 + digit)
            } else {
                Part::Bad
            }
        }
        None => {
            if count == 0 {
                Part::Bad
            } else {
                after_blank(count, size, byte)
            }
        }
    }
}

fn after_line(size: u64) -> Part
    ensures { result ≡ coded.after_line size }
{
    if size == 0 {
        Part::Trailers(TRAILER_BYTES as u64, Line::Fresh)
    } else {
        Part::Data(size)
    }
}

fn after_feed(left: u64, line: Line) -> Part
    ensures { result ≡ coded.after_feed left line }
{
    match line {
        Line::Fresh => Part::Done,
        Line::Returned => Part::Done,
        Line::Written => Part::Trailers(left, Line::Fresh),
    }
}

fn longer(line: Line, byte: u8) -> Line
    ensures { result ≡ coded.longer line byte }
{
    match line {
        Line::Fresh => {
            if byte == b'\r' {
                Line::Returned
            } else {
                Line::Written
            }
        }
        Line::Returned => Line::Written,
        Line::Written => Line::Written,
    }
}

fn after_trailer(left: u64, line: Line, byte: u8) -> Part
    ensures { result ≡ coded.next (Part.Trailers left line) byte }
{
    if left == 0 {
        Part::Bad
    } else if byte == b'\n' {
        after_feed(left - 1, line)
    } else {
        Part::Trailers(left - 1, longer(line, byte))
    }
}

fn after_data(left: u64, byte: u8) -> Part
    ensures { result ≡ coded.next (Part.Data left) byte }
{
    if left == 0 {
        if byte == b'\r' {
            Part::DataReturn
        } else {
            Part::Bad
        }
    } else {
        Part::Data(left - 1)
    }
}

// Returns the state after a byte. `O(1)`.
pub(crate) fn next(part: Part, byte: u8) -> Part
    ensures { result ≡ coded.next part byte }
{
    match part {
        Part::Digits(count, size) => after_digits(count, size, byte),
        Part::Blank(read, size) => after_blank(read, size, byte),
        Part::Extension(read, size) => after_extension(read, size, byte),
        Part::Return(size) => {
            if byte == b'\n' {
                after_line(size)
            } else {
                Part::Bad
            }
        }
        Part::Data(left) => after_data(left, byte),
        Part::DataReturn => {
            if byte == b'\n' {
                Part::Digits(0, 0)
            } else {
                Part::Bad
            }
        }
        Part::Trailers(left, line) => after_trailer(left, line, byte),
        Part::Done => Part::Done,
        Part::Bad => Part::Bad,
    }
}
