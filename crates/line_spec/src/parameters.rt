//! What follows from the table of parameters: each law is the contract of a function that does nothing.
ghost use Rattle.std.specs.Prelude.{◌≡◌, ◌≢◌, ℕ, List, [], ◌∷◌, length, Ok};
ghost use Rattle.line_spec.specs.Parameters.{Parameter, parameters_at_start, mcu_state, parameter_read, parameter_written, IsTable};

/// A write keeps the ids, the sizes and what may be written, as they are at the start.
pub fn a_write_keeps_the_table()
    ensures start { IsTable parameters_at_start }
    ensures written { (parameters after : List Parameter) (id : ℕ) (value : List ℕ) → IsTable parameters
        → parameter_written parameters id value ≡ Ok after → IsTable after }
{}

/// A value that was written is read back, whatever state the target is in.
pub fn a_written_value_is_read_back()
    ensures { (parameters after : List Parameter) (state id : ℕ) (value : List ℕ) → IsTable parameters
        → parameter_written parameters id value ≡ Ok after → parameter_read after state id ≡ Ok value }
{}

/// A write of one parameter leaves the others.
pub fn a_write_leaves_the_others()
    ensures { (parameters after : List Parameter) (state id other : ℕ) (value : List ℕ) → other ≢ id
        → parameter_written parameters id value ≡ Ok after
        → parameter_read after state other ≡ parameter_read parameters state other }
{}

/// A parameter that is read has the size that it had at the start.
pub fn a_value_has_its_size()
    ensures { (parameters : List Parameter) (state id : ℕ) (value start : List ℕ) → IsTable parameters
        → parameter_read parameters state id ≡ Ok value → parameter_read parameters_at_start state id ≡ Ok start
        → length value ≡ length start }
{}

/// MCU_STATE is read as the state, and never written.
pub fn mcu_state_is_the_state()
    ensures read { (parameters : List Parameter) (state : ℕ) → parameter_read parameters state mcu_state ≡ Ok (state ∷ []) }
    ensures written { (parameters after : List Parameter) (value : List ℕ) → IsTable parameters
        → parameter_written parameters mcu_state value ≡ Ok after → ⊥ }
{}
