// The table of signals, and what is found in it.
ghost use Rattle.std.specs.Prelude.{◌≡◌};
ghost use Rattle.std.specs.Option.{option_copied};
ghost use Rattle.exits.specs.Signals.{name_of, number_of};

// A signal by Linux's number and its name in RFC 4254, 6.10.
#[derive(Clone, Copy, Debug, PartialEq, Eq)]
pub(crate) struct Signal {
    number: i32,
    name: &'static [u8],
}

const SIGNALS: [Signal; 13] = [
    Signal {
        number: 1,
        name: b"HUP",
    },
    Signal {
        number: 2,
        name: b"INT",
    },
    Signal {
        number: 3,
        name: b"QUIT",
    },
    Signal {
        number: 4,
        name: b"ILL",
    },
    Signal {
        number: 6,
        name: b"ABRT",
    },
    Signal {
        number: 8,
        name: b"FPE",
    },
    Signal {
        number: 9,
        name: b"KILL",
    },
    Signal {
        number: 10,
        name: b"USR1",
    },
    Signal {
        number: 11,
        name: b"SEGV",
    },
    Signal {
        number: 12,
        name: b"USR2",
    },
    Signal {
        number: 13,
        name: b"PIPE",
    },
    Signal {
        number: 14,
        name: b"ALRM",
    },
    Signal {
        number: 15,
        name: b"TERM",
    },
];

// The name of a signal, if it has one.
pub(crate) fn name_of(number: i32) -> Option<&'static [u8]>
    ensures { option_copied result ≡ name_of number }
{
    SIGNALS
        .iter()
        .find(|signal| signal.number == number)
        .map(|signal| signal.name)
}

// The signal that has a name.
pub(crate) fn number_of(name: &[u8]) -> Option<i32>
    ensures { result ≡ number_of name.now }
{
    SIGNALS
        .iter()
        .find(|signal| signal.name == name)
        .map(|signal| signal.number)
}
