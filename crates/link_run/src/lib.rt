// A run is its single receives: specs/Singles. The run call itself is link_receive::run, and its definition link_receive/specs/Run.
#![tactic(auto)]
