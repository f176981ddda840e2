// Saves of the same value.
ghost use Rattle.std.specs.Prelude.{◌≡◌};

use crate::Saves;
use slot_store::SaveRun;

// The same save, if one runs.
fn copy_of_save(saving: &Option<SaveRun>) -> Option<SaveRun>
    ensures { result ≡ saving.now }
{
    match saving {
        Some(run) => Some(run.copy()),
        None => None,
    }
}

impl Saves {
    /// The same image, with the same save that runs, if one does.
    pub fn copy(&self) -> Saves
        ensures { result ≡ self.now }
    {
        let saving = copy_of_save(&self.saving);
        Saves {
            newest: self.newest,
            closed: self.closed,
            unsettled: self.unsettled,
            saving,
        }
    }
}
