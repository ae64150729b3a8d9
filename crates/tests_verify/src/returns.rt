//! Returns.

use crate::steps::first_wrong;
use std::test::Fail;

/// A method and a row of an instruction in it.
const ROWS: [(&str, &str); 25] = [
    ("app/A.small:()Z", "| int = 172 1 = |"),
    ("app/A.small:()Z", "| float = 172 1 = none"),
    ("app/A.small:()Z", "| = 172 1 = none"),
    ("app/A.small:()Z", "| float = 174 1 = none"),
    ("app/A.number:()J", "| int long = 173 3 = | int"),
    ("app/A.number:()J", "| double = 173 2 = none"),
    ("app/A.ratio:()F", "| float = 174 1 = |"),
    ("app/A.exact:()D", "| double = 175 2 = |"),
    ("app/A.exact:()D", "| long = 173 2 = none"),
    ("app/A.same:()Lapp/A;", "| app/B = 176 1 = |"),
    ("app/A.same:()Lapp/A;", "| null = 176 1 = |"),
    ("app/A.same:()Lapp/A;", "| lib/Base = 176 1 = none"),
    ("app/A.same:()Lapp/A;", "| new@0 = 176 1 = none"),
    ("app/A.same:()Lapp/A;", "| int = 176 1 = none"),
    ("app/A.same:()Lapp/A;", "| = 176 1 = none"),
    ("app/A.same:()Lapp/A;", "| app/A = 177 1 = none"),
    (
        "app/A.task:()Ljava/lang/Runnable;",
        "| java/lang/Object = 176 1 = |",
    ),
    ("app/A.task:()Ljava/lang/Runnable;", "| [I = 176 1 = none"),
    ("app/A.run", "app/A | = 177 0 = app/A |"),
    ("app/A.run", "| app/A = 176 1 = none"),
    ("app/A.run", "| int = 172 1 = none"),
    ("app/A.run", "this |! = 177 0 = none"),
    ("app/A.<init>", "app/A | = 177 0 = app/A |"),
    ("app/A.<init>", "this |! = 177 0 = none"),
    ("app/A.number:()J", "| = 177 0 = none"),
];

#[test]
fn returns(rt: HostRuntime) -> Result<(), Fail> {
    for (method, row) in ROWS {
        assert_eq!(rt; first_wrong(rt.alloc(), method, row)?, "");
    }
    Ok(())
}
