//! The number of words that a code takes, picked at run time.

/// Calls a function at the least width `W` of 1 to 4 words that has room for `bits` bits, where
/// `bits` is at most 256: `for_width!(bits, name, args..)` is `name::<W>(args..)`, and
/// `for_width!(bits, name<_, _>, args..)` is `name::<W, _, _>(args..)`.
#[macro_export]
macro_rules! for_width {
    ($bits:expr, $name:ident, $($arg:expr),*) => {
        if $bits <= 64 {
            $name::<1>($($arg),*)
        } else if $bits <= 128 {
            $name::<2>($($arg),*)
        } else if $bits <= 192 {
            $name::<3>($($arg),*)
        } else {
            $name::<4>($($arg),*)
        }
    };
    ($bits:expr, $name:ident<$($other:ty),*>, $($arg:expr),*) => {
        if $bits <= 64 {
            $name::<1, $($other),*>($($arg),*)
        } else if $bits <= 128 {
            $name::<2, $($other),*>($($arg),*)
        } else if $bits <= 192 {
            $name::<3, $($other),*>($($arg),*)
        } else {
            $name::<4, $($other),*>($($arg),*)
        }
    };
}
