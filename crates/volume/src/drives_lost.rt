// Rule 1: which drives are lost by what the named drives' logs say, and which are present. And refusal 5, which looks at the general logs of
// the present drives.
ghost use Rattle.std.specs.Prelude.{◌≡◌, ◌&&◌, ◌||◌, not, ℕ, ◌<◌, eqb};
ghost use Rattle.tables.specs.meaning.Basics.{pick};
ghost use Rattle.tables.specs.meaning.Below.{any_below};
ghost use Rattle.tables.specs.meaning.Drives.{find_below, no_drive};
ghost use Rattle.tables.specs.meaning.Geometry.{Valid};
ghost use Rattle.logs.specs.meaning.Heads.{labelled, array_in};
ghost use Rattle.volume.specs.meaning.CallContracts.{is_set};
ghost use Rattle.volume.specs.meaning.Rules.{general_heads, is_present};
ghost use Rattle.volume.specs.meaning.Refusals.{bad_labels};
ghost use Rattle.volume.specs.looking.DriveLogs.{Sized, says_lost};
ghost use Rattle.volume.specs.looking.Knowing.{read_device};
ghost use Rattle.volume.specs.looking.DrivesLost.{said_list, said_of, label_bad};

use tables::{Geometry, MAX_DRIVES};

// What one drive says, if it is named: the drive that its last label names as lost, or 255.
fn said_by(sectors: &[u8], written: &[u32], g: Geometry, named: bool, drive: usize) -> usize
    requires valid { Valid g }
    requires sized { Sized g sectors.now written.now × (drive < g.drives) }
    ensures { result ≡ pick named (says_lost (general_heads g (read_device g sectors.now written.now) drive)) no_drive }
{
    if !named {
        return 255;
    }
    super::drive_logs::says_lost(sectors, written, g, drive)
}

// What each drive says.
#[tactic(auto, unfolding(crate::specs::looking::DrivesLost::said_list))]
fn said_lost(
    sectors: &[u8],
    written: &[u32],
    g: Geometry,
    named: [bool; MAX_DRIVES],
) -> [usize; MAX_DRIVES]
    requires valid { Valid g }
    requires sized { Sized g sectors.now written.now }
    ensures { result ≡ said_list g named (read_device g sectors.now written.now) }
{
    let mut said = [255usize; MAX_DRIVES];
    for d in 0..g.drives {
        said[d] = said_by(sectors, written, g, named[d], d);
    }
    said
}

// Whether some drive says that drive d is lost.
fn is_said(g: Geometry, said: [usize; MAX_DRIVES], d: usize) -> bool
    requires { Valid g }
    ensures { result ≡ said_of g said d }
{
    said[..g.drives].contains(&d)
}

// The drives present: named, and said to be lost by no named drive.
#[tactic(auto, using(crate::specs::looking::DrivesLost::look_present_is))]
pub fn look_present(
    sectors: &[u8],
    written: &[u32],
    g: Geometry,
    named: [bool; MAX_DRIVES],
) -> [bool; MAX_DRIVES]
    requires valid { Valid g }
    requires sized { Sized g sectors.now written.now }
    ensures { is_set result ≡ is_present g (is_set named) (read_device g sectors.now written.now) }
{
    let said = said_lost(sectors, written, g, named);
    let mut here = [false; MAX_DRIVES];
    for d in 0..g.drives {
        let lost = is_said(g, said, d);
        here[d] = named[d] & !lost;
    }
    here
}

// Whether one drive is present and its log begins with another array number.
fn array_differs(
    sectors: &[u8],
    written: &[u32],
    g: Geometry,
    present: bool,
    d: usize,
    array: u64,
) -> bool
    requires valid { Valid g }
    requires sized { Sized g sectors.now written.now × (d < g.drives) }
    ensures { result ≡ present && not (eqb array (array_in (general_heads g (read_device g sectors.now written.now) d))) }
{
    if !present {
        return false;
    }
    let a = super::drive_logs::first_array(sectors, written, g, d);
    array != a
}

// Whether some present drive's log begins with another array number.
fn other_array(
    sectors: &[u8],
    written: &[u32],
    g: Geometry,
    here: [bool; MAX_DRIVES],
    array: u64,
) -> bool
    requires valid { Valid g }
    requires sized { Sized g sectors.now written.now }
    ensures { result ≡ any_below (λ (e : ℕ). is_set here e && not (eqb array (array_in (general_heads g (read_device g sectors.now written.now) e)))) g.drives }
{
    (0..g.drives).any(|e| array_differs(sectors, written, g, here[e], e, array))
}

// Refusal 5 for one drive: present, but its log does not begin with a label, or another begins with another array number.
fn label_bad(
    sectors: &[u8],
    written: &[u32],
    g: Geometry,
    here: [bool; MAX_DRIVES],
    d: usize,
) -> bool
    requires valid { Valid g }
    requires sized { Sized g sectors.now written.now × (d < g.drives) }
    ensures { result ≡ label_bad g (is_set here) (read_device g sectors.now written.now) d }
{
    let present = here[d];
    if !present {
        return false;
    }
    let labelled = super::drive_logs::begins_labelled(sectors, written, g, d);
    let a = super::drive_logs::first_array(sectors, written, g, d);
    let other = other_array(sectors, written, g, here, a);
    !labelled | other
}

// Refusal 5.
pub fn labels_bad(sectors: &[u8], written: &[u32], g: Geometry, here: [bool; MAX_DRIVES]) -> bool
    requires valid { Valid g }
    requires sized { Sized g sectors.now written.now }
    ensures { result ≡ bad_labels g (is_set here) (read_device g sectors.now written.now) }
{
    (0..g.drives).any(|d| label_bad(sectors, written, g, here, d))
}

// The last present drive, or 255.
fn last_present(g: Geometry, here: [bool; MAX_DRIVES]) -> usize
    requires { Valid g }
    ensures { result ≡ find_below (is_set here) g.drives }
{
    let mut x = 255;
    for d in 0..g.drives {
        if here[d] {
            x = d;
        }
    }
    x
}

// The array number with which the present drives' logs begin: that of the last present one, 0 if none is present.
pub fn look_array(sectors: &[u8], written: &[u32], g: Geometry, here: [bool; MAX_DRIVES]) -> u64
    requires valid { Valid g }
    requires sized { Sized g sectors.now written.now }
    ensures { result ≡ array_in (general_heads g (read_device g sectors.now written.now) (find_below (is_set here) g.drives)) }
{
    let n = g.drives;
    let d = last_present(g, here);
    if n <= d {
        return 0;
    }
    super::drive_logs::first_array(sectors, written, g, d)
}
