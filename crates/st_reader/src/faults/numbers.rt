//! Numbers that do not fit in 64 bits.
use crate::characters;
use crate::tokens::text;
use crate::trees::Span;

/// Whether a number has a minus.
#[derive(Clone, Copy)]
pub enum Sign {
    Plain,
    Minus,
}

/// Whether a number, with its sign, does not fit in 64 bits.
pub fn is_out_of_range(source: &[u8], digits: Span, sign: Sign) -> bool {
    let Some(magnitude) = characters::digits_value(text(source, digits)) else {
        return true;
    };
    let value = match sign {
        Sign::Plain => 0i64.checked_add_unsigned(magnitude),
        Sign::Minus => 0i64.checked_sub_unsigned(magnitude),
    };
    value.is_none()
}
