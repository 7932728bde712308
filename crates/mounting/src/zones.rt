// A mount's resets: of zones emptied by rule 3 "and of unclean ones with pointer 0, worn zones excepted".
ghost use Rattle.std.specs.Prelude.{◌≡◌, ◌<◌, length};
ghost use Rattle.tables.specs.meaning.Geometry.{Valid, cells};
ghost use Rattle.tables.specs.meaning.Phases.{on_present};
ghost use Rattle.tables.specs.laws.Made.{MadePointers};
ghost use Rattle.volume.specs.meaning.Mount.{zone_reset_step};
ghost use Rattle.volume.specs.meaning.CallContracts.{is_set};
ghost use Rattle.volume.specs.checks.Records.{zone_look};
ghost use Rattle.mounting.specs.MountLook.{shown_by, reset_needed};
ghost use Rattle.mounting.specs.MountResets.{zone_resets};

use tables::{Geometry, MAX_DRIVES};
use volume::Look;

// Whether a zone is to be reset.
fn reset_needed(g: Geometry, look: Look, z: usize) -> bool
    requires valid { Valid g }
    requires z_lt_zones { z < g.zones }
    ensures { result ≡ reset_needed (zone_look look z) }
{
    let zones = look.zones;
    let zone = zones[z];
    let condition = zone.condition;
    let worn = volume::records::is_worn(condition);
    let emptied = zone.by_reset;
    let clean = zone.clean;
    let pointer = zone.pointer;
    !worn & (emptied | (!clean & (pointer == 0)))
}

// The resets of one drive, if it is here: what is left of the budget of stores.
fn reset_drive(
    written: &mut [u32],
    durable: &mut [u32],
    g: Geometry,
    here: [bool; MAX_DRIVES],
    look: Look,
    drive: usize,
    budget: u64,
) -> u64
    requires valid { Valid g }
    requires drive_lt_drives { (drive < g.drives) × (length written.old ≡ cells g) × (length durable.old ≡ cells g) }
    ensures { MadePointers g budget result (on_present (is_set here) (zone_resets look drive g.zones)) written.old durable.old written.new durable.new }
{
    let mut rest = budget;
    for z in 0..g.zones {
        let needed = reset_needed(g, look, z);
        rest = tables::stores::reset_counted(
            written,
            durable,
            g,
            here[drive] & needed,
            drive,
            tables::DATA_ZONES + z,
            rest,
        );
    }
    rest
}

// The resets of the step, drive by drive.
pub fn reset_zones(
    written: &mut [u32],
    durable: &mut [u32],
    g: Geometry,
    here: [bool; MAX_DRIVES],
    look: Look,
    budget: u64,
) -> u64
    requires valid { Valid g }
    requires written_len { (length written.old ≡ cells g) × (length durable.old ≡ cells g) }
    ensures { MadePointers g budget result (on_present (is_set here) (zone_reset_step g (shown_by look))) written.old durable.old written.new durable.new }
{
    let mut rest = budget;
    for d in 0..g.drives {
        rest = reset_drive(written, durable, g, here, look, d, rest);
    }
    rest
}
