use gm_config::*;
use std::alloc::{AllocError, Global};
use std::test::Fail;

const SMALL: &str =
    r#"{"nodes":1,"types":[{"name":"t","count":1}],"labels":["p"],"constraints":[{"source":"t","label":"p","target":"t","out":{"kind":"uniform","min":1,"max":1},"in":{"kind":"uniform","min":1,"max":1}}],"workload":{"queries":0,"shapes":["chain"],"classes":["constant"],"star":0,"rules":[1,1],"conjuncts":[1,1],"disjuncts":[1,1],"length":[1,1]}}"#;

const TYPES: &str = r#"[{"name":"t","share":500},{"name":"u","count":2}]"#;

const CONSTRAINTS: &str =
    r#"[{"source":"t","label":"p","target":"u","out":{"kind":"uniform","min":1,"max":2},"in":{"kind":"free"}},{"source":"u","label":"q","target":"t","out":{"kind":"bell","center":3,"width":1},"in":{"kind":"zipf","exponent":2}}]"#;

const WIDE: &str =
    r#"{"nodes":11,"types":[{"name":"t","share":500},{"name":"u","count":2}],"labels":["p","q"],"constraints":[{"source":"t","label":"p","target":"u","out":{"kind":"uniform","min":1,"max":2},"in":{"kind":"free"}},{"source":"u","label":"q","target":"t","out":{"kind":"bell","center":3,"width":1},"in":{"kind":"zipf","exponent":2}}],"workload":{"queries":5,"shapes":["chain","star"],"classes":["linear","constant"],"star":0,"rules":[1,4],"conjuncts":[1,1],"disjuncts":[1,8],"length":[1,32]}}"#;

/// What is read from the text after the first `old` in it has become `new`.
fn read_changed(
    alloc: Global,
    text: &str,
    old: &str,
    new: &str,
) -> Result<Result<Config, ConfigError>, Fail> {
    let Some((before, after)) = text.split_once(old) else {
        return Err(Fail::new("the text has no such part"));
    };
    let changed = format!(in alloc; "{before}{new}{after}")?;
    Ok(read_config(alloc, changed.as_bytes()))
}

/// The fault with which the text is refused after that change, and none where it is accepted.
fn fault_of(alloc: Global, text: &str, old: &str, new: &str) -> Result<Option<ConfigFault>, Fail> {
    match read_changed(alloc, text, old, new)? {
        Ok(_) => Ok(None),
        Err(ConfigError::Fault(fault)) => Ok(Some(fault)),
        Err(ConfigError::NoMemory) => Err(Fail::new("out of memory")),
    }
}

#[test]
fn values(rt: HostRuntime) -> Result<(), Fail> {
    let config = match read_config(rt.alloc(), WIDE.as_bytes()) {
        Ok(config) => config,
        Err(_) => return Err(Fail::new("no configuration")),
    };
    assert_eq!(rt; config.type_count(), 2);
    assert_eq!(rt; config.label_count(), 2);
    assert_eq!(rt; config.constraint_count(), 2);
    assert_eq!(rt; config.node_type(1).name.as_slice(), b"u".as_slice());
    assert_eq!(rt; config.node_type(0).amount, Amount::Share(500));
    assert_eq!(rt; config.label(1).as_slice(), b"q".as_slice());
    assert_eq!(rt; config.constraint(1).source, 1);
    assert_eq!(rt; config.constraint(1).label, 1);
    assert_eq!(rt; config.constraint(1).target, 0);
    assert_eq!(rt; config.node_count(0), 5);
    assert_eq!(rt; config.first_node(1), 5);
    let workload = config.workload();
    assert_eq!(rt; workload.queries, 5);
    assert_eq!(rt; workload.shapes.len(), 2);
    assert_eq!(rt; workload.classes.len(), 2);
    assert_eq!(rt; workload.disjuncts, Range { least: 1, most: 8 });
    assert_eq!(rt; workload.length, Range { least: 1, most: 32 });
    assert_eq!(rt; workload.arity, Range { least: 2, most: 2 });
    assert_eq!(rt; workload.format, 1);
    Ok(())
}

#[test]
fn broken_rules(rt: HostRuntime) -> Result<(), Fail> {
    let alloc = rt.alloc();
    for (rule, index, old, new) in [
        (1, 0, r#""nodes":11"#, r#""nodes":11,"edges":1"#),
        (2, 0, r#""nodes":11"#, r#""nodes":1000001"#),
        (2, 0, r#""nodes":11"#, r#""nodes":11.0"#),
        (3, 0, TYPES, "[]"),
        (4, 1, r#""count":2"#, r#""nodes":2"#),
        (5, 1, r#""name":"u""#, r#""name":"1u""#),
        (6, 1, r#""name":"u""#, r#""name":"t""#),
        (7, 1, r#""count":2"#, r#""count":1000001"#),
        (8, 0, r#""count":2"#, r#""share":501"#),
        (9, 0, r#""count":2"#, r#""count":999996"#),
        (10, 0, r#"["p","q"]"#, "[]"),
        (11, 1, r#"["p","q"]"#, r#"["p","q r"]"#),
        (12, 1, r#"["p","q"]"#, r#"["p","p"]"#),
        (13, 0, CONSTRAINTS, "[]"),
        (14, 1, r#""exponent":2}"#, r#""exponent":2},"more":0"#),
        (15, 1, r#""label":"q""#, r#""label":"r""#),
        (
            16,
            1,
            r#""source":"u","label":"q","target":"t""#,
            r#""source":"t","label":"p","target":"u""#,
        ),
        (17, 1, r#""center":3"#, r#""center":100000"#),
        (18, 1, r#""exponent":2"#, r#""exponent":4"#),
        (
            19,
            1,
            r#""bell","center":3,"width":1},"in":{"kind":"zipf","exponent":2"#,
            r#""free"},"in":{"kind":"free""#,
        ),
        (20, 0, r#""star":0,"#, ""),
        (20, 0, r#""star":0,"#, r#""star":0,"arity":[2,2],"more":0,"#),
        (21, 0, r#""queries":5"#, r#""queries":1001"#),
        (22, 1, r#"["linear","constant"]"#, r#"["linear","linear"]"#),
        (23, 3, r#""length":[1,32]"#, r#""length":[1,33]"#),
        (23, 4, r#""star":0,"#, r#""star":0,"arity":[0,5],"#),
        (23, 4, r#""star":0,"#, r#""star":0,"arity":[3,2],"#),
        (23, 4, r#""star":0,"#, r#""star":0,"arity":2,"#),
        (24, 0, r#"["chain","star"]"#, r#"["chain","cycle"]"#),
    ] {
        let fault = fault_of(alloc, WIDE, old, new)?;
        assert_eq!(rt;
            fault,
            Some(ConfigFault::Broken { rule, index }),
            "at {new}"
        );
    }
    Ok(())
}

#[test]
fn earlier_rules_are_tried_first(rt: HostRuntime) -> Result<(), Fail> {
    let alloc = rt.alloc();
    let repeated = r#"[{"name":"u","count":1},{"name":"v","count":1},{"name":"u","share":2000}]"#;
    for (rule, index, old, new) in [
        (6, 2, r#"[{"name":"t","count":1}]"#, repeated),
        (23, 1, r#""conjuncts":[1,1]"#, r#""conjuncts":[2,1]"#),
        (24, 0, r#"["chain"]"#, r#"["cycle"]"#),
    ] {
        let fault = fault_of(alloc, SMALL, old, new)?;
        assert_eq!(rt;
            fault,
            Some(ConfigFault::Broken { rule, index }),
            "at {new}"
        );
    }
    Ok(())
}

#[test]
fn hostile_inputs(rt: HostRuntime) -> Result<(), Fail> {
    let alloc = rt.alloc();
    for (fault, old, new) in [
        (Some(ConfigFault::Broken { rule: 1, index: 0 }), SMALL, "[]"),
        (
            Some(ConfigFault::Broken { rule: 2, index: 0 }),
            r#""nodes":1"#,
            r#""nodes":-1"#,
        ),
        (
            Some(ConfigFault::Broken { rule: 2, index: 0 }),
            r#""nodes":1"#,
            r#""nodes":"1""#,
        ),
        (
            Some(ConfigFault::Broken { rule: 2, index: 0 }),
            r#""nodes":1"#,
            r#""nodes":1000001"#,
        ),
        (
            Some(ConfigFault::Broken { rule: 17, index: 0 }),
            r#""max":1}"#,
            r#""max":100001}"#,
        ),
        (None, r#""nodes":1"#, r#""nodes":1000000"#),
        (None, r#""max":1}"#, r#""max":100000}"#),
        (None, r#""length":[1,1]"#, r#""length":[32,32]"#),
        (None, r#""length":[1,1]"#, r#""length":[1,1],"arity":[0,4]"#),
    ] {
        assert_eq!(rt; fault_of(alloc, SMALL, old, new)?, fault, "at {new}");
    }
    Ok(())
}

fn is_not_json(alloc: Global, bytes: &[u8]) -> bool {
    matches!(
        read_config(alloc, bytes),
        Err(ConfigError::Fault(ConfigFault::NotJson))
    )
}

#[test]
fn texts_that_are_no_json(rt: HostRuntime) -> Result<(), Fail> {
    let alloc = rt.alloc();
    for count in 0..SMALL.len() {
        assert!(rt;
            is_not_json(alloc, &SMALL.as_bytes()[..count]),
            "the first {count} bytes"
        );
    }
    assert!(rt; is_not_json(alloc, &[b'['; 200]));
    let mut bytes = SMALL.as_bytes().to_vec(alloc)?;
    if let Some(byte) = bytes.get_mut(29) {
        *byte = 255;
    }
    assert!(rt; is_not_json(alloc, &bytes));
    Ok(())
}

/// A list of so many types, of which the first has one node and each other none.
fn types_text(alloc: Global, count: u32) -> Result<String, AllocError> {
    let mut text = String::from_str(alloc, r#"[{"name":"t","count":1}"#)?;
    for i in 1..count {
        let node_type = format!(in alloc; ",{{\"name\":\"t{i}\",\"count\":0}}")?;
        text.push_str(&node_type)?;
    }
    text.push_str("]")?;
    Ok(text)
}

#[test]
fn numbers_of_types(rt: HostRuntime) -> Result<(), Fail> {
    let alloc = rt.alloc();
    for (count, fault) in [
        (1, None),
        (64, None),
        (65, Some(ConfigFault::Broken { rule: 3, index: 0 })),
    ] {
        let types = types_text(alloc, count)?;
        let read = fault_of(alloc, SMALL, r#"[{"name":"t","count":1}]"#, &types)?;
        assert_eq!(rt; read, fault, "at {count} types");
    }
    Ok(())
}

#[test]
fn arities(rt: HostRuntime) -> Result<(), Fail> {
    let alloc = rt.alloc();
    for (text, least, most, format) in [
        (r#""star":0"#, 2, 2, 1),
        (r#""star":0,"arity":[2,2]"#, 2, 2, 2),
        (r#""star":0,"arity":[0,4]"#, 0, 4, 2),
        (r#""star":0,"arity":[0,0]"#, 0, 0, 2),
    ] {
        let Ok(config) = read_changed(alloc, SMALL, r#""star":0"#, text)? else {
            return Err(Fail::new("no configuration"));
        };
        assert_eq!(rt; config.workload().arity, Range { least, most }, "at {text}");
        assert_eq!(rt; config.workload().format, format, "at {text}");
    }
    Ok(())
}

/// The numbers of nodes of the types.
fn node_counts(alloc: Global, config: &Config) -> Result<Vec<u32>, AllocError> {
    let mut counts = Vec::new(alloc);
    for t in 0..config.type_count() {
        counts.push(config.node_count(t))?;
    }
    Ok(counts)
}

/// Those of the sample of so many thousand nodes, and none where there is no such sample.
fn sample_counts(alloc: Global, k: u32) -> Result<Vec<u32>, AllocError> {
    if k < 1 || 100 < k {
        return Ok(Vec::new(alloc));
    }
    let config = sample_config(alloc, k)?;
    node_counts(alloc, &config)
}

#[test]
fn the_sample(rt: HostRuntime) -> Result<(), Fail> {
    for (k, counts) in [
        (1, [500, 300, 100, 100, 100]),
        (10, [5000, 3000, 1000, 1000, 100]),
        (100, [50000, 30000, 10000, 10000, 100]),
    ] {
        assert_eq!(rt;
            sample_counts(rt.alloc(), k)?.as_slice(),
            counts.as_slice(),
            "at {k}"
        );
    }
    Ok(())
}
