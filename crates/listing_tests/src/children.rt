use crate::fixture::{holds, prefix, put, told};
use keys::row::Row;
use keys::store_prefix::StorePrefix;
use listings::listing::discover_children;
use memory_store::memory_store::MemoryStore;
use std::test::Fail;

#[test]
fn reserved_names_are_no_children(rt: HostRuntime) -> Result<(), Fail> {
    let mut store = MemoryStore::new(rt.alloc())?;
    put(&mut store, b"__r/a/b");
    put(&mut store, b"a/__x/y");
    put(&mut store, b"a/_y/z");
    put(&mut store, b"a/b__/c");
    put(&mut store, b"a/b__/__d/e");
    let mut rows = [Row::empty(); 2];
    assert_eq!(rt;
        told(discover_children(&store, &StorePrefix::root(), &mut rows)),
        Ok(1)
    );
    assert!(rt; holds(&rows[0], b"a/"));
    assert_eq!(rt;
        told(discover_children(&store, &prefix(b"a/"), &mut rows)),
        Ok(2)
    );
    assert!(rt; holds(&rows[0], b"a/_y/") && holds(&rows[1], b"a/b__/"));
    assert_eq!(rt;
        told(discover_children(&store, &prefix(b"a/b__/"), &mut rows)),
        Ok(0)
    );
    assert_eq!(rt;
        told(discover_children(&store, &prefix(b"__r/"), &mut rows)),
        Ok(0)
    );
    let mut one = [Row::empty(); 1];
    assert_eq!(rt;
        told(discover_children(&store, &prefix(b"a/"), &mut one)),
        Err((9, 0))
    );
    assert!(rt; holds(&one[0], b""));
    Ok(())
}
