// The calls on a drawer, one lent buffer that holds the states of a panel's lists by id.
ghost use Rattle.std.specs.Prelude.{◌≡◌, true, OnOk};
ghost use Rattle.refusals.specs.Refusal.{number_in};
ghost use Rattle.records.specs.Tidied.{TidiedHolds};
ghost use Rattle.drawer.specs.Drawer.{is_drawer};
ghost use Rattle.drawer.specs.Calls as Spec;
ghost use Rattle.drawer.specs.Lists.{AllDrawerLists, AllAscend};

use refusals::Refusal;

// Reads only the buffer's length. After it a load gives the last state saved under its id, whatever list of calls came before.
pub fn strakobud_drawer_lay(drawer: &mut [u8]) -> Result<(), Refusal>
    ensures answers { record { refusal = number_in result; drawer = drawer.new } ≡ Spec.lay_on drawer.old }
    ensures kept { OnOk result (is_drawer Spec.width drawer.new ≡ true) }
    ensures lists { OnOk result (AllDrawerLists drawer.new) }
    ensures order { OnOk result (AllAscend drawer.new) }
{
    drawer::lay(drawer)
}

pub fn strakobud_drawer_save(drawer: &mut [u8], id: u64, state: &[u8; 156]) -> Result<(), Refusal>
    ensures answers { record { refusal = number_in result; drawer = drawer.new }
        ≡ Spec.save_on drawer.old id state.now }
    ensures kept { OnOk result (is_drawer Spec.width drawer.new ≡ true) }
{
    drawer::save(drawer, id, state)
}

// What is handed out stands for the state that was saved, and is the very record where the library wrote it.
pub fn strakobud_drawer_load(drawer: &[u8], id: u64, state: &mut [u8; 156]) -> Result<(), Refusal>
    ensures answers { record { refusal = number_in result; state = state.new }
        ≡ Spec.load_on drawer.now id state.old }
    ensures stands { TidiedHolds }
{
    drawer::load(drawer, id, state)
}

pub fn strakobud_drawer_forget(drawer: &mut [u8], id: u64) -> Result<(), Refusal>
    ensures answers { record { refusal = number_in result; drawer = drawer.new } ≡ Spec.forget_on drawer.old id }
    ensures kept { OnOk result (is_drawer Spec.width drawer.new ≡ true) }
{
    drawer::forget(drawer, id)
}
