// The base of an application's files, read once for many names.
ghost use Rattle.std.specs.Prelude.{◌≡◌, ◌≢◌, ℕ, List, Err, IfOk, Ok};
ghost use Rattle.addresses.specs.declared.fault.UrlFault.TheVariants.{NotHttp};
ghost use Rattle.addresses.specs.Address.{Gives, IsAddress, is_memory};
ghost use Rattle.addresses.specs.Join.{base_of, file_target_beside};
ghost use Rattle.small_types.specs.declared.target.Target.{Target};
ghost use Rattle.small_types.specs.Outcome.{GivesBut};

use crate::UrlFault;
use crate::join::{base_url, file_beside};
use small_types::{Name, Target};
use std::alloc::Global;
use url::Url;

/// The URL of an application's manifest, to which the names of its files are joined. It is read
/// once, so that each name costs no more than its own address.
#[derive(Drop)]
pub struct FileBase {
    document: Url,
}

impl FileBase {
    ghost use Rattle.addresses.specs.FileBase.{document_of};

    /// That of the base. `BadUrl` comes exactly where the base, as it is written, is no URL;
    /// `NotHttp` never comes.
    pub fn read(alloc: Global, base: &Target) -> Result<FileBase, UrlFault>
        ensures exact { GivesBut is_memory document_of result (base_of base.now) }
        ensures http { (scheme : List ℕ) → result ≢ Err (NotHttp scheme) }
    {
        match base_url(alloc, base) {
            Ok(document) => Ok(FileBase { document }),
            Err(fault) => Err(fault),
        }
    }

    /// The address of a file of the application, as `file_target` gives it.
    pub fn target(&self, alloc: Global, mapped: bool, name: &Name) -> Result<Target, UrlFault>
        ensures exact { Gives result (file_target_beside (document_of self.now) mapped name.now) }
        ensures address { (base : Target) → base_of base ≡ Ok (document_of self.now)
            → IfOk result IsAddress }
        ensures http { (scheme : List ℕ) → result ≢ Err (NotHttp scheme) }
    {
        file_beside(alloc, &self.document, mapped, name.as_bytes())
    }
}
