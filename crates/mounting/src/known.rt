// What a mount's look knows of a zone.
ghost use Rattle.std.specs.Prelude.{◌≡◌};
ghost use Rattle.tables.specs.meaning.Geometry.{Valid};
ghost use Rattle.volume.specs.looking.Knowing.{Readable};
ghost use Rattle.mounting.specs.MountReady.{known_extent};

use super::Basis;
use tables::Geometry;
use volume::rows::Extent;

// The zone's content below an end that is at or below the pointer shown: all of it is known, no buffer follows.
// What is stored goes by `to`.
pub fn known_below(
    sectors: &[u8],
    pointers: &[u32],
    basis: Basis,
    to: Geometry,
    z: usize,
    end: usize,
) -> Extent
    requires valid { Valid basis.geometry }
    requires readable { Readable basis.geometry basis.here sectors.now pointers.now z }
    ensures { result ≡ known_extent basis.geometry to basis.here basis.look sectors.now pointers.now z end }
{
    let g = basis.geometry;
    let here = basis.here;
    let zones = basis.look.zones;
    let zone = zones[z];
    let generation = zone.generation;
    let limit = volume::knowing::seal_limit(sectors, pointers, g, here, z, generation);
    Extent {
        geometry: g,
        to,
        here,
        zone: z,
        generation,
        limit,
        below: end,
        end,
    }
}
