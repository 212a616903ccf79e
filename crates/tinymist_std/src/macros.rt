//! Macros that make errors. Each takes the allocator first, and then the place.

/// Returns from the function with an error of that place whose message is formatted:
/// `bail!(alloc, "place", "no file {name}")`.
#[macro_export]
macro_rules! bail {
    ($alloc:expr, $loc:expr, $($message:tt)+) => {
        return Err($crate::Error::new(
            $loc,
            match format!(in $alloc; $($message)+) {
                Ok(message) => $crate::ErrKind::Msg(message),
                Err(_) => $crate::ErrKind::OutOfMemory,
            },
            None,
        ))
    };
}

/// An error of that place with named values as arguments and nothing else to say:
/// `error_once!(alloc, "place", path: path, count: 2)`. With no pair its list of arguments is empty.
#[macro_export]
macro_rules! error_once {
    ($alloc:expr, $loc:expr $(, $name:ident: $value:expr)* $(,)?) => {
        $crate::ErrorArgs::new($alloc)$(.with($alloc, stringify!($name), &$value))*.error($loc)
    };
}

/// A closure that maps an error by [`map_err_with_args`](crate::map_err_with_args), with named
/// values as arguments: `error_once_map!(alloc, "place", path: path)`.
#[macro_export]
macro_rules! error_once_map {
    ($alloc:expr, $loc:expr $(, $name:ident: $value:expr)* $(,)?) => {
        |error| {
            $crate::ErrorArgs::new($alloc)
                $(.with($alloc, stringify!($name), &$value))*
                .map_err($alloc, $loc, error)
        }
    };
}

/// A closure that maps an error by
/// [`map_string_err_with_args`](crate::map_string_err_with_args), with named values as arguments.
#[macro_export]
macro_rules! error_once_map_string {
    ($alloc:expr, $loc:expr $(, $name:ident: $value:expr)* $(,)?) => {
        |error| {
            $crate::ErrorArgs::new($alloc)
                $(.with($alloc, stringify!($name), &$value))*
                .map_string_err($alloc, $loc, error)
        }
    };
}
