// What a device notes of its calls.
ghost use Rattle.std.specs.Prelude.{◌≡◌, [], ◌∷◌, ◌++◌, length, not, true, false};

use call_record::{Notes, Record};
use std::test::Fail;

// A call with the bytes that it borrows, and whether it was done.
#[derive(Clone, Copy)]
struct Call<'a> {
    place: u64,
    bytes: &'a [u8],
    done: bool,
}

// A device that notes its calls by their places, their counts of bytes and their ends.
impl Notes<(u64, u64, bool)> for Call<'_> {
    ghost notes = { λ c. (c.place, length c.bytes.now, c.done) ∷ [] };
}

#[derive(Drop)]
struct Device {
    failing: bool,
    called: Record<(u64, u64, bool)>,
    taken: Record<u8>,
}

impl Device {
    fn new() -> Device
        ensures { (result.called.noted ≡ []) × (result.taken.noted ≡ [])
            × (result.failing ≡ false) }
    {
        Device {
            failing: false,
            called: Record::new(),
            taken: Record::new(),
        }
    }

    fn write(&mut self, place: u64, bytes: &[u8]) -> bool
        ensures called { self.new.called.noted
            ≡ self.old.called.noted ++ (place, length bytes.now, result) ∷ [] }
        ensures taken { result ≡ true → self.new.taken.noted ≡ self.old.taken.noted ++ bytes.now }
        ensures refused { result ≡ false → self.new.taken.noted ≡ self.old.taken.noted }
        ensures done { result ≡ not self.old.failing }
        ensures failing { self.new.failing ≡ self.old.failing }
    {
        let done = !self.failing;
        self.called.note(&Call { place, bytes, done });
        if done {
            self.taken.note(&bytes);
        }
        done
    }
}

// Its clauses say what stands in the two lists.
fn two_writes(device: &mut Device)
    requires nothing { (device.old.called.noted ≡ []) × (device.old.taken.noted ≡ []) }
    requires works { device.old.failing ≡ false }
    ensures called { device.new.called.noted ≡ (7, 2, true) ∷ (9, 0, true) ∷ [] }
    ensures taken { device.new.taken.noted ≡ 104 ∷ 105 ∷ [] }
{
    device.write(7, b"hi");
    device.write(9, b"");
}

#[test]
fn a_device_notes_its_calls(rt: HostRuntime) -> Result<(), Fail> {
    let mut device = Device::new();
    two_writes(&mut device);
    assert!(rt; device.write(3, b"more"));
    Ok(())
}
