//! Commands over texts.

use crate::runs::{
    CREATE, GEOMETRY, RUN, SIMULATE, VERIFY, end_so, leave_script, lines_end_so, values_end_so,
};
use crate::{devices, geometries, served, simulated};

#[test]
fn commands_over_texts_end_so(rt: HostRuntime) {
    let tables = &[
        (GEOMETRY, geometries::layouts()),
        (GEOMETRY, geometries::largest_layout()),
        (GEOMETRY, geometries::faults()),
        (GEOMETRY, geometries::later_faults()),
        (GEOMETRY, geometries::failures()),
        (CREATE, devices::no_files()),
        (VERIFY, devices::no_files()),
        (RUN, devices::unset()),
        (SIMULATE, simulated::scripts()),
        (SIMULATE, simulated::failures()),
    ];
    end_so(&rt, rt.alloc(), tables);
}

#[test]
fn each_value_that_is_not_its_keys_is_refused(rt: HostRuntime) {
    let tables = &[geometries::wrong_values(), geometries::no_arrays()];
    values_end_so(&rt, rt.alloc(), &GEOMETRY, tables);
}

#[test]
fn the_first_line_that_is_no_event_is_named(rt: HostRuntime) {
    lines_end_so(&rt, rt.alloc(), &SIMULATE, simulated::no_events());
    lines_end_so(&rt, rt.alloc(), &RUN, served::no_events());
}

#[test]
fn a_script_is_unread_while_the_settings_are_wrong(rt: HostRuntime) {
    leave_script(
        &rt,
        rt.alloc(),
        &[
            "slots",
            "slots = 3",
            "slots = 4\nchunk = 1\nblock = 16\nrows = 4\nshards = 1\n",
        ],
    );
}
