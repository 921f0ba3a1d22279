//! Calls between marks, and calls on an object that are made again where memory ran out in them.

/// What a call answers that is made between marks.
#[macro_export]
macro_rules! called {
    ($line:ident, $call:expr) => {{
        $line.begin();
        let answer = $call;
        $line.end();
        answer
    }};
}

/// Says what a call answers that is made between marks, by this function of a line.
#[macro_export]
macro_rules! said {
    ($line:ident, $says:ident, $call:expr) => {{
        let answer = $crate::called!($line, $call);
        $line.$says(&answer);
    }};
}

/// What a call gives that is made between marks. Where it has a fault, that is said, and the
/// function ends.
#[macro_export]
macro_rules! given {
    ($line:ident, $call:expr) => {{
        match $crate::called!($line, $call) {
            Ok(value) => value,
            Err(fault) => return $line.refuses(&fault),
        }
    }};
}

/// What a call on an object answers that is made between marks. Where memory ran out in it, it is
/// made once more; what is read of the object has to be the same in between.
#[macro_export]
macro_rules! asked {
    ($line:ident, $call:expr, $reads:expr) => {{
        let before = $reads;
        $line.begin();
        let answer = $call;
        $line.end();
        if $line.lacked(&answer) {
            let after = $reads;
            $line.again(after == before);
            $call
        } else {
            answer
        }
    }};
}
