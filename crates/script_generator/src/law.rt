//! What is generated is a script.
ghost use Rattle.std.specs.Prelude.{◌≡◌, ◌≤◌, ℕ, Ok};
ghost use Rattle.conn_script.specs.Grammar.{script_of};
ghost use Rattle.conn_script.specs.declared.command.Script.{Script};
ghost use Rattle.script_generator.specs.Generator.{generated_script};

/// The bytes that any seed generates are those of a script, up to 100,000 stanzas.
pub fn generated_bytes_are_a_script()
    ensures { (seed count : ℕ) → count ≤ 100000
        → (script : Script) × (script_of (generated_script seed count) ≡ Ok script) }
{}
