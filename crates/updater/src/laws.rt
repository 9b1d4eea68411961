// What is true of images, with no code.
ghost use Rattle.std.specs.Prelude.{◌≡◌, ℕ, List};
ghost use Rattle.machine.specs.Store.{Store};
ghost use Rattle.updater.specs.StandsFor.{StandsFor};

use table_log::an_image_reads_as_one;

/// The bytes of a disk stand for one store at most.
pub fn one_image_one_store()
    ensures { (image : List ℕ) (a b : Store) → StandsFor image a → StandsFor image b → a ≡ b }
{
    an_image_reads_as_one();
}
