ghost use Rattle.std.specs.Prelude.{◌≡◌, ◌++◌, ℕ, List, IfOk, IfErr, OnOk, string_bytes};
ghost use Rattle.late_cert.specs.declared.report.Report.{Report};
ghost use Rattle.log_texts.specs.Reports.{reports_text};
ghost use Rattle.late_cert.specs.Certificates.{IsCertified};
ghost use Rattle.log_texts.specs.ScriptTexts.{IsRolled};

use crate::fault::Fault;
use crate::run::kept;
use dispatch_core::Core;
use due_key::Key;
use late_cert::{Reports, certify};
use log_texts::{Names, push_reports, push_roll};
use pend_queue::PendQueue;
use std::alloc::{AllocError, Global};

/// Returns the reports on all decisions of a dispatcher since the present window began: for each
/// queue and class with a grant, the smallest greatest lateness that any assignment of the same
/// slots has, and the tickets that prove it. `O(n log n)` in the grants; fails only where memory is
/// refused.
pub fn reports_of<Q: PendQueue<Key, usize>>(
    alloc: Global,
    core: &Core<Q>,
) -> Result<Reports, AllocError>
    ensures { IfOk result (IsCertified core.now) }
{
    certify(alloc, core.log())
}

// Appends the lines of a dispatcher's reports.
pub(crate) fn report<Q: PendQueue<Key, usize>>(
    alloc: Global,
    core: &Core<Q>,
    names: &Names,
    text: &mut String,
) -> Result<(), Fault>
    ensures ok { OnOk result ((reports : List Report) × IsCertified core.now reports
        × (string_bytes text.new ≡ string_bytes text.old ++ reports_text names.now reports)) }
    ensures err { IfErr result (λ fault. fault ≡ Fault.NoMemory) }
{
    let Ok(reports) = reports_of(alloc, core) else {
        return Err(Fault::NoMemory);
    };
    kept(push_reports(text, names, reports.as_slice()))
}

// Appends the line of a roll and those of the reports of the window that it ends, and begins the next one.
pub(crate) fn roll<Q: PendQueue<Key, usize>>(
    alloc: Global,
    core: &mut Core<Q>,
    names: &Names,
    text: &mut String,
) -> Result<(), Fault>
    ensures ok { OnOk result ((front : List ℕ) × IsRolled names.now core.old core.new front
        × (string_bytes text.new ≡ string_bytes text.old ++ front)) }
    ensures err { IfErr result (λ fault. fault ≡ Fault.NoMemory) }
{
    let Ok(ended) = reports_of(alloc, core) else {
        return Err(Fault::NoMemory);
    };
    kept(push_roll(text, names, ended.as_slice()))?;
    core.roll();
    Ok(())
}
