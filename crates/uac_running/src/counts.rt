// What is counted for the report: the ticks of each domain.
ghost use Rattle.std.specs.Prelude.{◌≡◌, IfOk, map};
ghost use Rattle.uac_running.specs.TickCounts.{none_counted, more_counted};

use std::alloc::Global;
use uac_descriptor::NoMemory;

/// A clock domain and how often it ticked since the start; the count stands still at 18446744073709551615.
#[derive(Clone, Copy, Debug, PartialEq, Eq)]
pub struct TickCount {
    pub domain: u8,
    pub ticks: u64,
}

/// No ticks of these domains yet.
pub(crate) fn no_ticks(alloc: Global, domains: &[u8]) -> Result<Vec<TickCount>, NoMemory>
    ensures { IfOk result (λ counts. counts.items ≡ map none_counted domains.now) }
{
    let mut counts = Vec::new(alloc);
    for clock in domains {
        let count = TickCount {
            domain: *clock,
            ticks: 0,
        };
        counts.push(count)?;
    }
    Ok(counts)
}

/// A domain ticked so often.
pub(crate) fn count_ticks(counts: &mut [TickCount], domain: u8, ticks: u32)
    ensures { counts.new ≡ map (more_counted domain ticks) counts.old }
{
    for count in counts.iter_mut() {
        *count = after_ticks(*count, domain, ticks);
    }
}

fn after_ticks(count: TickCount, domain: u8, ticks: u32) -> TickCount
    ensures { result ≡ more_counted domain ticks count }
{
    if count.domain == domain {
        TickCount {
            ticks: count.ticks.saturating_add(u64::from(ticks)),
            ..count
        }
    } else {
        count
    }
}
