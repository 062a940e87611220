//! The steps of a run and whole runs, as definitions. No code: `tb_run` makes such a run, and `tb_laws` has its laws.
#![tactic(auto)]
