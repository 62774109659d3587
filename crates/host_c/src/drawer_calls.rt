// The calls on a drawer, one lent buffer that holds the states of a panel's lists by id.
ghost use Rattle.std.specs.Prelude.{◌≡◌, true};
ghost use Rattle.records.specs.Tidied.{TidiedHolds};
ghost use Rattle.drawer.specs.Drawer.{is_drawer};
ghost use Rattle.drawer.specs.Calls as Spec;
ghost use Rattle.drawer.specs.Lists.{AllDrawerLists, AllAscend};

#[unsafe(no_mangle)]
pub extern "C" fn strakobud_drawer_lay(drawer: &mut [u8]) -> u32
    ensures answers { record { refusal = result; drawer = drawer.new } ≡ Spec.lay_on drawer.old }
    ensures kept { result ≡ 0 → is_drawer Spec.width drawer.new ≡ true }
    ensures lists { result ≡ 0 → AllDrawerLists drawer.new }
    ensures order { result ≡ 0 → AllAscend drawer.new }
{
    refusals::number(&host::strakobud_drawer_lay(drawer))
}

#[unsafe(no_mangle)]
pub extern "C" fn strakobud_drawer_save(drawer: &mut [u8], id: u64, state: &[u8; 156]) -> u32
    ensures answers { record { refusal = result; drawer = drawer.new }
        ≡ Spec.save_on drawer.old id state.now }
    ensures kept { result ≡ 0 → is_drawer Spec.width drawer.new ≡ true }
{
    refusals::number(&host::strakobud_drawer_save(drawer, id, state))
}

#[unsafe(no_mangle)]
pub extern "C" fn strakobud_drawer_load(drawer: &[u8], id: u64, state: &mut [u8; 156]) -> u32
    ensures answers { record { refusal = result; state = state.new }
        ≡ Spec.load_on drawer.now id state.old }
    ensures stands { TidiedHolds }
{
    refusals::number(&host::strakobud_drawer_load(drawer, id, state))
}

#[unsafe(no_mangle)]
pub extern "C" fn strakobud_drawer_forget(drawer: &mut [u8], id: u64) -> u32
    ensures answers { record { refusal = result; drawer = drawer.new } ≡ Spec.forget_on drawer.old id }
    ensures kept { result ≡ 0 → is_drawer Spec.width drawer.new ≡ true }
{
    refusals::number(&host::strakobud_drawer_forget(drawer, id))
}
