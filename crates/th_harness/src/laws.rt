// What the definitions of scripts say, worked out.
ghost use Rattle.std.specs.Prelude.{◌≡◌, map};
ghost use Rattle.th_syntax.specs.Worked.{storing_program};
ghost use Rattle.th_harness.specs.Script.{order_in, script_of};
ghost use Rattle.th_harness.specs.Worked.{lines, scripts};

/// What each of thirty lines asks for, if anything, and how six scripts are read for a program of one
/// Activity.
pub fn scripts_are_read()
    ensures lines { map (λ one. order_in one.0) lines ≡ map (λ one. one.1) lines }
    ensures scripts { map (λ one. script_of storing_program one.0) scripts ≡ map (λ one. one.1) scripts }
{}
