// Reading a services file.
ghost use Rattle.std.specs.Prelude.{◌≡◌};
ghost use Rattle.wire.specs.Reading.{answer, left};
ghost use Rattle.service.specs.FileTables.{ServicesLawful};
ghost use Rattle.service.specs.File.{Fills, contents, services_of, file_of, zero_file, Whole, ServicesLaw};

use super::CommunityFile;
use crate::limits::{MAX_ACTIONS, MAX_SERVICES};
use crate::service::fill;
use wire::reader::Reader;
use wire::refusal::Refusal;

impl CommunityFile {
    // Reads the services, each lent to the function that fills it.
    fn fill_services(&mut self, reader: &mut Reader) -> Result<(), Refusal>
        ensures fills { Fills result reader.new.at self.new.services (services_of reader.old.bytes.now self.old.count self.old.actions reader.old.at self.old.services) }
        ensures bytes { reader.new.bytes.now ≡ reader.old.bytes.now }
        ensures shape { (self.new.count ≡ self.old.count) × (self.new.actions ≡ self.old.actions) }
    {
        // by index: the struct has an invariant, and so a proof does not know what `iter_mut`, or a loop over a slice of the
        // array, leaves there
        for i in 0..usize::from(self.count) {
            fill(&mut self.services[i], self.actions, reader)?;
        }
        Ok(())
    }

    // Reads the whole file into a zeroed one.
    fn fill_whole(&mut self, bytes: &[u8]) -> Result<(), Refusal>
        requires { contents self.old ≡ zero_file }
        ensures { Whole result (contents self.new) (file_of bytes.now) }
    {
        let mut reader = Reader::new(bytes);
        self.count = reader.field(1, MAX_SERVICES as u16)? as u8;
        self.actions = reader.field(1, MAX_ACTIONS as u16)? as u8;
        self.fill_services(&mut reader)?;
        reader.finish()
    }
}

// Reads a services file into `out`, which is the zero file after any refusal.
// The caller's own value is filled and not one answered, since the promise tells it after a refusal too.
pub fn read_services(bytes: &[u8], out: &mut CommunityFile) -> Result<(), Refusal>
    ensures says { result ≡ answer (file_of bytes.now) }
    ensures leaves { contents out.new ≡ left zero_file (file_of bytes.now) }
    ensures law { ServicesLaw bytes.now }
    ensures lawful { ServicesLawful bytes.now }
{
    *out = CommunityFile::zero();
    let r = out.fill_whole(bytes);
    if r.is_err() {
        *out = CommunityFile::zero();
    }
    r
}
