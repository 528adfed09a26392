// Whether lines are coloured: on a terminal, unless the variable NO_COLOR has a value.
use text_system::System;

fn is_set(system: &System) -> bool {
    let mut value = [0u8; 16];
    0 < text_system::arguments::variable(system, "NO_COLOR", &mut value)
}

pub fn has_colours(system: &System) -> bool {
    text_system::streams::is_terminal(system) && !is_set(system)
}
