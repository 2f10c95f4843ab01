// Whether clocks and feedback have kept within what the bands of the rings allow.
use std::marker::Model;

/// Whether each deviation that was given is at most a thousandth and no stream lost four feedback reports in succession. Streams are
/// numbered from 0 to 7. A contract sees the answer, and by stream how many reports were lost since one came, at most four.
#[derive(Clone, Copy, Debug, PartialEq, Eq)]
pub struct Steady {
    holds: bool,
    runs: [u8; 8],
}

impl Model for Steady {
    ghost use Rattle.uac_rate.specs.Steadiness.{SteadyFields};

    ghost Value = { SteadyFields };

    ghost view = { λ steady. record { holds = steady.holds; runs = steady.runs } };

    ghost inverse = { λ fields. record { holds = fields.holds; runs = fields.runs } };
}

impl Steady {
    ghost use Rattle.std.specs.Prelude.{◌≡◌, ◌<◌, false};
    ghost use Rattle.uac_rate.specs.Steadiness.{SteadyStands, SteadyHistory, nothing_given, with_deviation_given, with_report_given};
    ghost use Rattle.uac_rate.specs.Steadiness.{with_restart_given, is_steady};

    /// Nothing was given yet.
    pub fn new() -> Steady
        ensures stands { SteadyStands result nothing_given }
    {
        Steady {
            holds: true,
            runs: [0; 8],
        }
    }

    /// A clock is off by so many ppm from now on.
    pub fn deviate(&mut self, ppm: i32)
        ensures stands { (given : SteadyHistory) → SteadyStands self.old given → SteadyStands self.new (with_deviation_given ppm given) }
        ensures never_again { self.old.holds ≡ false → self.new.holds ≡ false }
    {
        self.holds = self.holds && -1000 <= ppm && ppm <= 1000;
    }

    /// A feedback report of this stream came, or was lost.
    pub fn report(&mut self, stream: u8, lost: bool)
        requires { stream < 8 }
        ensures stands { (given : SteadyHistory) → SteadyStands self.old given
            → SteadyStands self.new (with_report_given stream lost given) }
        ensures never_again { self.old.holds ≡ false → self.new.holds ≡ false }
    {
        let run = if lost {
            self.runs[usize::from(stream)].saturating_add(1).min(4)
        } else {
            0
        };
        self.runs[usize::from(stream)] = run;
        self.holds = self.holds && run < 4;
    }

    /// Starts a stream anew: reports lost before are no part of a run of reports after.
    pub fn restart(&mut self, stream: u8)
        requires { stream < 8 }
        ensures stands { (given : SteadyHistory) → SteadyStands self.old given → SteadyStands self.new (with_restart_given stream given) }
        ensures never_again { self.old.holds ≡ false → self.new.holds ≡ false }
    {
        self.runs[usize::from(stream)] = 0;
    }

    /// Whether all that was given is steady. Once it isn't, it never is again.
    pub fn holds(&self) -> bool
        ensures { (given : SteadyHistory) → SteadyStands self.now given → result ≡ is_steady given }
    {
        self.holds
    }
}
