//! Inputs of the commands.

/// An input of `values`: a column of four coefficients, on four points.
pub const FOUR_COEFFICIENTS: &str =
    r#"{"coefficients":[[1],[2],[3],[4]],"log_n":2,"shift":[32768,32768]}"#;

/// An input of `shape`: one claim of one column, of 8 committed rows.
pub const ONE_CLAIM: &str = concat!(
    r#"{"log_max_height":3,"opened_widths":[[[1]]],"params":{"batch_pow_bits":0,"#,
    r#""commit_pow_bits":0,"log_blowup":1,"max_log_arity":1,"num_queries":2,"query_pow_bits":0}"#,
    r#"}"#
);

/// An input of `prove`: four sevens, opened at one point.
pub const SEVENS: &str = concat!(
    r#"{"batches":[[{"points":[[0,1,0]],"rows":[[7],[7],[7],[7]]}]],"params":{"batch_pow_bits":0,"#,
    r#""commit_pow_bits":0,"log_blowup":1,"max_log_arity":1,"num_queries":2,"query_pow_bits":0}}"#
);

/// The claims and the proof that another implementation made of it.
pub const PROVED_SEVENS: &str = concat!(
    r#"{"batches":[{"commitment":"#,
    r#""34c97a0e4c8b6b3ba5efec4935f92f5c9f03c7b4f903106174f717ee21aecab3","matrices":[{"log_n":"#,
    r#"2,"points":[{"point":[0,1,0],"values":[[7,0,0]]}]}]}],"params":{"batch_pow_bits":0,"#,
    r#""commit_pow_bits":0,"log_blowup":1,"max_log_arity":1,"num_queries":2,"query_pow_bits":0}"#,
    r#","proof":{"batch_pow_witness":0,"first_layer_commitment":"#,
    r#""8788d6e7c51f7c77cca7aa077ef7a133329b18c1d079f80821c081352089c8f9","fri_proof":{"#,
    r#""commit_phase_commits":["#,
    r#""318250ba578b27236b5cf463f06b0f4be95e60c178e80cdf51dbe9888febe511"],"#,
    r#""commit_phase_openings":[{"opening_proof":["#,
    r#""61126de1b795b976f3ac878f48e88fa77a87d7308ba57c7642b9e1068403a496"],"sibling_values":[[["#,
    r#"0,0,0]],[[0,0,0]]]}],"commit_pow_witnesses":[0],"final_poly":[0,0,0],"input_openings":{"#,
    r#""first_layer_proof":["318250ba578b27236b5cf463f06b0f4be95e60c178e80cdf51dbe9888febe511"]"#,
    r#","first_layer_siblings":[[[0,0,0]],[[0,0,0]]],"input_openings":[{"opened_values":[[[7]],"#,
    r#"[[7]]],"opening_proof":["#,
    r#""043a0631871a3f67ac03c5f8406b69a0dc14bd5b23e55f27a5d4462b0f0a2d23","#,
    r#""043a0631871a3f67ac03c5f8406b69a0dc14bd5b23e55f27a5d4462b0f0a2d23","#,
    r#""573fb8d28ec5782bfb5c20f3abe5eeec180441f48b77088dcdcf58a3395b5288"]}]},"pow_witness":0},"#,
    r#""lambdas":[[0,0,0]]}}"#
);
