// The range of the registers, for refusal 4.
ghost use Rattle.std.specs.Prelude.{◌≡◌};
ghost use Rattle.cp0.specs.Range as R;

use crate::Cp0;
use crate::moves::built_status;
use crate::registers::{
    kept_cause, kept_context, kept_entryhi, kept_entrylo, kept_index, kept_status, kept_wired,
};

// Whether Random stands between Wired and 47.
#[tactic(auto, unfolding(crate::specs::Range::random_in_range))]
fn random_in_range(random: u32, wired: u32) -> bool
    ensures { result ≡ R.random_in_range random wired }
{
    random <= 47 && (47 < wired || wired <= random)
}

// Whether Status is kept and built.
#[tactic(auto, unfolding(crate::specs::Range::status_in_range))]
fn status_in_range(status: u32) -> bool
    ensures { result ≡ R.status_in_range status }
{
    kept_status(status) == status && built_status(status)
}

// Whether Config is 8000h to 8007h.
#[tactic(auto, unfolding(crate::specs::Range::config_in_range))]
fn config_in_range(config: u32) -> bool
    ensures { result ≡ R.config_in_range config }
{
    (0x8000..=0x8007).contains(&config)
}

// Whether the registers that go with the TLB are in range.
#[tactic(auto, unfolding(crate::specs::Range::entries_in_range))]
fn entries_in_range(cp0: Cp0) -> bool
    ensures { result ≡ R.entries_in_range cp0 }
{
    kept_index(cp0.index) == cp0.index
        && kept_entrylo(cp0.entrylo0) == cp0.entrylo0
        && kept_entrylo(cp0.entrylo1) == cp0.entrylo1
        && kept_context(cp0.context) == cp0.context
        && kept_wired(cp0.wired) == cp0.wired
        && kept_entryhi(cp0.entryhi) == cp0.entryhi
        && tlb::legal_mask(u64::from(cp0.pagemask))
}

// Whether the others are.
#[tactic(auto, unfolding(crate::specs::Range::control_in_range))]
fn control_in_range(cp0: Cp0) -> bool
    ensures { result ≡ R.control_in_range cp0 }
{
    random_in_range(cp0.random, cp0.wired)
        && status_in_range(cp0.status)
        && kept_cause(cp0.cause) == cp0.cause
        && config_in_range(cp0.config)
        && cp0.prid == 0x0400
}

// Whether the registers are in range.
#[tactic(auto, unfolding(crate::specs::Range::cp0_in_range))]
pub fn cp0_in_range(cp0: Cp0) -> bool
    ensures { result ≡ R.cp0_in_range cp0 }
{
    entries_in_range(cp0) && control_in_range(cp0)
}
