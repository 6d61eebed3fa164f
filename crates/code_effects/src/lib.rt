// What each kind does: one arm a kind.
#![tactic(auto)]

ghost use Rattle.std.specs.Prelude.{◌≡◌};
ghost use Rattle.spec_effects.specs.Effects.{effect};

use code_semaphores::semaphores;
use spec_calls::call::Call;
use spec_kernel::records::Kernel;

pub fn effect(k: Kernel, c: Call) -> Kernel
    ensures { result ≡ effect k c }
{
    let kind = c.kind;
    match kind {
        1 => code_time::tick(k, c),
        2 => code_threads::create_thread(k, c),
        3 => code_threads::destroy_thread(k, c),
        4 => code_threads::set_priority(k, c),
        5 => code_threads::reset_priority(k, c),
        6 => code_threads::yielded(k, c),
        7 => code_threads::sleep(k, c),
        8 => code_regions::push_unscheduled(k, c),
        9 => code_regions::pop_unscheduled(k, c),
        10 => code_regions::pop_all_unscheduled(k, c),
        11 => code_regions::push_critical(k, c),
        12 => code_regions::pop_critical(k, c),
        13 => code_regions::pop_all_critical(k, c),
        14 => semaphores::create_semaphore(k, c),
        15 => semaphores::destroy_semaphore(k, c),
        16 => semaphores::make_periodic(k, c),
        17 => semaphores::remove_periodic(k, c),
        18 => semaphores::pend_semaphore(k, c),
        19 | 28 => semaphores::post_semaphore(k, c),
        20 | 22 | 23 | 29 | 30 => code_events::signalled(k, c),
        21 => code_events::pend_event(k, c),
        24 => code_messages::create_message(k, c),
        25 => code_messages::destroy_message(k, c),
        26 => code_messages::post_message(k, c),
        27 => code_messages::pend_message(k, c),
        31 => code_flags::create_flag(k, c),
        32 => code_flags::destroy_flag(k, c),
        33 => code_flags::pend_flag(k, c),
        34 => code_flags::post_flag(k, c),
        _ => k,
    }
}
