//! The values of a code at the parts of a layout.

ghost use Rattle.std.specs.Prelude.{IfOk};
ghost use Rattle.shard_version.specs.Contents.{IsVersion};
ghost use Rattle.shard_version.specs.Tables.{HasTables};
ghost use Rattle.shard_probe.specs.Kept.{AreValues};
ghost use Rattle.shard_probe.specs.Probed.{parts_in, code_in, KeepsCode};

use gph_codes::Code;
use read_meter::NoMemory;
use shard_version::Version;
use std::alloc::Global;

// The values of a code at the parts of a version's layout.
pub(crate) fn values_of<const W: usize>(
    alloc: Global,
    version: &Version<W>,
    code: &Code<W>,
) -> Result<Vec<u16>, NoMemory>
    requires { KeepsCode W version.now code.now }
    ensures values { IfOk result (λ values.
        AreValues (parts_in version.now) (code_in version.now code.now) values.items) }
    ensures version { IfOk result (λ values. IsVersion version.now.contents) }
    ensures tables { IfOk result (λ values. HasTables W version.now) }
{
    let layout = version.layout();
    let parts = layout.parts();
    let mut values = Vec::with_capacity(alloc, parts as usize)?;
    for part in 0..parts {
        values.push(layout.value(code, part))?;
    }
    Ok(values)
}
