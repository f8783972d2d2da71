// Lists of fields, in the order of their bits. Each list stands once for reading and once for writing.

/// Reads one field: a bit, a number of so many bits, or what a function reads where a flag says so.
macro_rules! read_field {
    ($reader:ident, bit) => {
        flag($reader)?
    };
    ($reader:ident, ($read:ident $there:expr)) => {
        $read($reader, $there)?
    };
    ($reader:ident, $n:literal) => {
        small($reader, $n)?
    };
}

/// Reads fields, each into a variable of its name.
macro_rules! read_fields {
    ($reader:ident: $($field:ident $kind:tt),* $(,)?) => {
        $(let $field = $crate::fields::read_field!($reader, $kind);)*
    };
}

/// Writes one field.
macro_rules! write_field {
    ($writer:ident, $value:expr, bit) => {
        $writer.put_flag($value)?
    };
    ($writer:ident, $value:expr, ($write:ident)) => {
        $write($value, $writer)?
    };
    ($writer:ident, $value:expr, $n:literal) => {
        put_small($writer, $value, $n)?
    };
}

/// Writes the values of fields.
macro_rules! write_fields {
    ($writer:ident: $($value:expr => $kind:tt),* $(,)?) => {
        $($crate::fields::write_field!($writer, $value, $kind);)*
    };
}

pub(crate) use read_field;
pub(crate) use read_fields;
pub(crate) use write_field;
pub(crate) use write_fields;
