use std::fmt::Debug;
use std::io;

/// What a test ends with if memory is wanted before its call.
pub const SET_UP: &str = "no memory for the set-up";

/// What a test ends with if standard output takes no line.
pub const TOLD: &str = "a line on standard output";

/// Says on standard output why a call gave up.
pub fn tell<E: Debug>(rt: &impl Print, error: &E) -> io::Result<()> {
    println!(rt; "refused: {error:?}")
}

/// What a call answers. If it gives up, it is told why, what is unchanged is looked at, and the call is made again.
#[macro_export]
macro_rules! answer {
    ($rt:expr, $call:expr) => {
        $crate::answer!($rt, $call, ())
    };
    ($rt:expr, $call:expr, $unchanged:expr) => {
        match $call {
            Ok(answer) => answer,
            Err(error) => {
                $crate::tell($rt, &error).expect($rt, $crate::TOLD);
                $unchanged;
                $call.expect($rt, "the call made again")
            }
        }
    };
}
