//! Rows of collection: a library, the classes of an application, what its codes name, and the answer.

ghost use Rattle.std.specs.Prelude.{IfOk};
ghost use Rattle.av_collected.specs.Libraries.{IsLibrary};

use crate::answers::shown;
use crate::application::{App, app_of};
use crate::library::{CORE, library_of};
use crate::mem_source::MemSource;
use av_closure::collect;
use av_collected::{CollectStop, Collected};
use av_tables::ReadFile;
use std::alloc::Global;
use std::test::Fail;
use tests_text::part;

/// The number of no call.
const NEVER: u64 = u64::MAX;

/// Each rule alone. An answer has the number of collected classes, the greatest dimension, and the classes with their
/// collected members; of those of `java/` only the ones that have such members.
const RULES: &str = "\
# the six classes that every world has, and two methods of Object
object =  =  = 6 1 java/lang/Object.<init>.finalize
java/lang/Object,C,,+.<init>:(I)V,+.<init>,+.m,#.finalize,+.finalize:(I)V =  =  = 6 1 java/lang/Object.<init>.finalize
# named by an instruction: by a type, and by a reference that resolves to nothing, with its descriptor
object lib/A,C = a/C,C,,+.run = load@lib/A = 7 1 java/lang/Object.<init>.finalize lib/A
object lib/A,C = a/C,C,,+.run = new@lib/A = 7 1 java/lang/Object.<init>.finalize lib/A
object lib/A,C = a/C,C,,+.run = load@[[Llib/A; = 7 2 java/lang/Object.<init>.finalize lib/A
object lib/A,C = a/C,C,,+.run = array@lib/A = 7 1 java/lang/Object.<init>.finalize lib/A
object lib/A,C = a/C,C,,+.run = arrays@[[[Llib/A; = 7 3 java/lang/Object.<init>.finalize lib/A
object lib/A,C,,+.y:Llib/B; lib/B,C = a/C,C,,+.run = get@lib/A.x:Llib/B; = 8 1 java/lang/Object.<init>.finalize lib/A lib/B
object lib/A,C lib/B,C lib/D,C = a/C,C,,+.run = call@lib/A.m:(Llib/B;)Llib/D; = 9 1 java/lang/Object.<init>.finalize lib/A lib/B lib/D
object lib/A,C = a/C,C,,+.run a/D,C = new@a/D = 6 1 java/lang/Object.<init>.finalize
# named in descriptors of members, as a superclass, as a superinterface, by a handler and by a stack map
object lib/A,C = a/C,C,,+.x:[Llib/A; =  = 7 1 java/lang/Object.<init>.finalize lib/A
object lib/A,C lib/B,C = a/C,C,,+.run:(I[[Llib/A;)Llib/B; =  = 8 2 java/lang/Object.<init>.finalize lib/A lib/B
object lib/A,C = a/C,C,lib/A =  = 7 1 java/lang/Object.<init>.finalize lib/A
object lib/I,I = a/C,C,,lib/I =  = 7 1 java/lang/Object.<init>.finalize lib/I
object lib/A,C = a/C,C,,+.run = catch@lib/A = 7 1 java/lang/Object.<init>.finalize lib/A
object lib/A,C = a/C,C,,+.run = map@lib/A = 7 1 java/lang/Object.<init>.finalize lib/A
# the supertypes of a collected class
object lib/A,C,lib/B,lib/I lib/B,C lib/I,I,,lib/J lib/J,I lib/K,I = a/C,C,,+.run = new@lib/A = 10 1 java/lang/Object.<init>.finalize lib/A lib/B lib/I lib/J
# the field to which a reference resolves: in the class, then above its superinterfaces, then above its superclass
object lib/A,C,,+.x:I,+.x:J,+.y:I = a/C,C,,+.run = get@lib/A.x:J = 7 1 java/lang/Object.<init>.finalize lib/A.x
object lib/A,C,lib/B,lib/I lib/B,C,,+.x:I lib/I,I,,+cx:I = a/C,C,,+.run = get@lib/A.x:I = 9 1 java/lang/Object.<init>.finalize lib/A lib/B lib/I.x
object lib/A,C,lib/B,lib/I lib/B,C,,-.x:I lib/I,I = a/C,C,,+.run = get@lib/A.x:I = 9 1 java/lang/Object.<init>.finalize lib/A lib/B.x lib/I
object lib/A,C,,+.x:I = a/C,C,lib/A,+.run = get@a/C.x:I = 7 1 java/lang/Object.<init>.finalize lib/A.x
object lib/A,C,,+.x:I = a/C,C,lib/A,+.run,+.x:I = get@a/C.x:I = 7 1 java/lang/Object.<init>.finalize lib/A
# the method to which a reference resolves: static and private ones too, and a constructor only in its own class
object lib/A,C,lib/B lib/B,C,,+sm,+.n = a/C,C,,+.run = call@lib/A.m = 8 1 java/lang/Object.<init>.finalize lib/A lib/B.m
object lib/A,C,,-.m = a/C,C,,+.run = call@lib/A.m = 7 1 java/lang/Object.<init>.finalize lib/A.m
object lib/A,A,,lib/I lib/I,I,,+am = a/C,C,,+.run = call@lib/A.m = 8 1 java/lang/Object.<init>.finalize lib/A lib/I.m
object lib/I,I,,lib/J lib/J,I,,+am = a/C,C,,+.run = interface@lib/I.m = 8 1 java/lang/Object.<init>.finalize lib/I lib/J.m
object lib/I,I,,+am = a/C,C,,+.run = call@lib/I.m = 7 1 java/lang/Object.<init>.finalize lib/I
object lib/A,C,,+.m = a/C,C,,+.run = interface@lib/A.m = 7 1 java/lang/Object.<init>.finalize lib/A
object lib/A,C,lib/B,+.<init> lib/B,C,,+.<init>,+.<init>:(I)V = a/C,C,,+.run = call@lib/A.<init> = 8 1 java/lang/Object.<init>.finalize lib/A.<init> lib/B
object lib/A,C,lib/B lib/B,C,,+.<init>:(I)V = a/C,C,,+.run = call@lib/A.<init>:(I)V = 8 1 java/lang/Object.<init>.finalize lib/A lib/B
# the instance methods that an application class inherits or overrides, but private ones and the two special ones
object lib/P,A,,lib/I,+.m,#.n,~.k,-.p,+ss,+.<init>,~s<clinit>,+.x:I lib/I,I,,+ai = a/C,A,lib/P,+.m =  = 8 1 java/lang/Object.<init>.finalize lib/I.i lib/P.m.n.k
object lib/P,C,lib/Q lib/Q,C,,+.m = a/C,C,lib/P a/D,C,a/C =  = 8 1 java/lang/Object.<init>.finalize lib/P lib/Q.m
java/lang/Object,C,,+.<init>,#.finalize,+.m,-.p,+ss = a/C,C =  = 6 1 java/lang/Object.<init>.finalize.m
java/lang/Object,C,,+.<init>,#.finalize,+.m =  =  = 6 1 java/lang/Object.<init>.finalize
# the classes in the descriptors of collected members
object lib/P,C,,+.m:(I[[Llib/A;)Llib/B; lib/A,C lib/B,C = a/C,C,lib/P =  = 9 2 java/lang/Object.<init>.finalize lib/A lib/B lib/P.m
object lib/P,C,,-.m:([[Llib/A;)Llib/B; = a/C,C,lib/P =  = 7 1 java/lang/Object.<init>.finalize lib/P
# the instance methods of a collected class with the name and the descriptor of a collected one, but constructors
object lib/A,C,,+.m lib/B,C,,+.m,+.m:(I)V,+.<init> = a/C,C,,+.run = call@lib/A.m new@lib/B = 8 1 java/lang/Object.<init>.finalize lib/A.m lib/B.m
object lib/A,C,,+.m lib/B,C,,-.m lib/D,C,,+sm lib/E,C = a/C,C,,+.run = call@lib/A.m new@lib/B new@lib/D new@lib/E = 10 1 java/lang/Object.<init>.finalize lib/A.m lib/B lib/D lib/E
object lib/A,C,,+sm lib/B,C,,+.m = a/C,C,,+.run = call@lib/A.m new@lib/B = 8 1 java/lang/Object.<init>.finalize lib/A.m lib/B
object lib/P,C,,+.m:()Llib/A; lib/A,C,,+.finalize = a/C,C,lib/P =  = 8 1 java/lang/Object.<init>.finalize lib/A.finalize lib/P.m
# a reference to an array looks in Object alone
java/lang/Object,C,,+.<init>,#.finalize,#.clone:()Ljava/lang/Object; lib/A,C,,+.m = a/I,I,-,+arun = call@[Llib/A;.clone:()Ljava/lang/Object; = 7 1 java/lang/Object.<init>.finalize.clone lib/A
java/lang/Object,C,,+.<init>,#.finalize,#.clone:()Ljava/lang/Object; lib/A,C,,+.m = a/I,I,-,+arun = call@[Llib/A;.m = 7 1 java/lang/Object.<init>.finalize lib/A
java/lang/Object,C,,+.<init>,#.finalize,+.m = a/I,I,-,+arun = call@[[I.m = 6 2 java/lang/Object.<init>.finalize.m
java/lang/Object,C,,+.<init>,#.finalize,+.m = a/I,I,-,+arun = interface@[I.m = 6 1 java/lang/Object.<init>.finalize";

/// A chain of classes in which one is absent, malformed, circular or of the wrong kind, and the order of refusals.
const CHAINS: &str = "\
object lib/A,C,lib/B lib/B,C,lib/D lib/D,C,,+.m = a/C,C,,+.run = call@lib/A.m = 9 1 java/lang/Object.<init>.finalize lib/A lib/B lib/D.m
# absent
object lib/B,C,lib/D lib/D,C,,+.m = a/C,C,,+.run = call@lib/A.m = Missing lib/A
object lib/A,C,lib/B lib/D,C,,+.m = a/C,C,,+.run = call@lib/A.m = Missing lib/B
object lib/A,C,lib/B lib/B,C,lib/D = a/C,C,,+.run = call@lib/A.m = Missing lib/D
object lib/A,A,,lib/I = a/C,C,,+.run = call@lib/A.m = Missing lib/I
object = a/C,C,lib/A,+.run = get@a/C.x:I = Missing lib/A
- object java/lang/Throwable,C java/lang/String,F java/lang/Cloneable,I java/io/Serializable,I =  =  = Missing java/lang/Class
# malformed
object !lib/A lib/B,C,lib/D lib/D,C,,+.m = a/C,C,,+.run = call@lib/A.m = LibraryForm lib/A
object lib/A,C,lib/B !lib/B lib/D,C,,+.m = a/C,C,,+.run = call@lib/A.m = LibraryForm lib/B
object lib/A,C,lib/B lib/B,C,lib/D !lib/D = a/C,C,,+.run = call@lib/A.m = LibraryForm lib/D
object lib/A,A,,lib/I !lib/I = a/C,C,,+.run = call@lib/A.m = LibraryForm lib/I
# of a name that is kept free, and a class that every world has which is not as it has to be
object lib/averroes$any,C = a/C,C,,+.run = new@lib/averroes$any = LibraryForm lib/averroes$any
java/lang/Object,C,,+.<init> =  =  = LibraryForm java/lang/Object
- object java/lang/Throwable,C java/lang/String,F java/lang/Class,I java/lang/Cloneable,I java/io/Serializable,I =  =  = LibraryForm java/lang/Class
# circular: collected, but no reference to such a class resolves
object lib/A,C,lib/B lib/B,C,lib/D lib/D,C,lib/A,+.m = a/C,C,,+.run = call@lib/D.m = 9 1 java/lang/Object.<init>.finalize lib/A lib/B lib/D
object lib/A,C,lib/B lib/B,C,lib/D lib/D,C,lib/B,+.m = a/C,C,,+.run = call@lib/A.m = 9 1 java/lang/Object.<init>.finalize lib/A lib/B lib/D
object lib/A,C,lib/B lib/B,C,lib/D lib/D,C,lib/D,+.m = a/C,C,,+.run = call@lib/A.m = 9 1 java/lang/Object.<init>.finalize lib/A lib/B lib/D
object lib/I,I,,lib/J lib/J,I,,lib/I,+am = a/C,C,,+.run = interface@lib/J.m = 8 1 java/lang/Object.<init>.finalize lib/I lib/J
object lib/P,C,lib/Q lib/Q,C,lib/P,+.m = a/C,C,lib/P =  = 8 1 java/lang/Object.<init>.finalize lib/P lib/Q.m
# of the wrong kind: a superclass that is an interface or final, a superinterface that is a class, a class without superclass
object lib/A,C,lib/B lib/B,C,lib/D lib/D,I,,+am = a/C,C,,+.run = call@lib/A.m = 9 1 java/lang/Object.<init>.finalize lib/A lib/B lib/D
object lib/A,C,lib/B lib/B,I,,+am = a/C,C,,+.run = call@lib/A.m = 8 1 java/lang/Object.<init>.finalize lib/A lib/B
object lib/A,C,lib/B lib/B,C,lib/D lib/D,F,,+.m = a/C,C,,+.run = call@lib/A.m = 9 1 java/lang/Object.<init>.finalize lib/A lib/B lib/D
object lib/A,C,lib/B lib/B,F,lib/D lib/D,C,,+.m = a/C,C,,+.run = call@lib/A.m = 9 1 java/lang/Object.<init>.finalize lib/A lib/B lib/D
object lib/A,A,,lib/I lib/I,I,,lib/J lib/J,C,,+.m = a/C,C,,+.run = call@lib/A.m = 9 1 java/lang/Object.<init>.finalize lib/A lib/I lib/J
object lib/A,A,,lib/I lib/I,C,,+.m = a/C,C,,+.run = call@lib/A.m = 8 1 java/lang/Object.<init>.finalize lib/A lib/I
object lib/A,C,lib/B lib/B,C,-,+.m = a/C,C,,+.run = call@lib/A.m = 8 1 java/lang/Object.<init>.finalize lib/A lib/B
# a collected class that names one of the application: as its superclass, or in a collected member
object lib/A,C,a/C = a/C,C,,+.run = new@lib/A = NamesApplication lib/A
object lib/A,C,,+.x:[La/C; = a/C,C,,+.run = get@lib/A.x:[La/C; = NamesApplication lib/A
object lib/A,C,,+.x:La/C;,+.m:(La/C;)V = a/C,C,,+.run = new@lib/A = 7 1 java/lang/Object.<init>.finalize lib/A
# the least name of the first cause
object = a/C,C,,+.run = new@lib/B new@lib/A = Missing lib/A
object lib/M,C,lib/A = a/C,C,,+.run = new@lib/Z new@lib/M = Missing lib/A
object !lib/B !lib/A = a/C,C,,+.run = new@lib/B new@lib/A = LibraryForm lib/A
object !lib/B = a/C,C,,+.run = new@lib/A new@lib/B = LibraryForm lib/B
object lib/A,C,a/C = a/C,C,,+.run = new@lib/A new@lib/B = Missing lib/B
object lib/B,C,a/C lib/A,C,,+.m:()La/C; = a/C,C,,+.run = new@lib/B call@lib/A.m:()La/C; = NamesApplication lib/A
# worked examples
- java/lang/Object,C,,+.<init>,+.hashCode:()I,+.equals:(Ljava/lang/Object;)Z,+.toString:()Ljava/lang/String;,+fgetClass:()Ljava/lang/Class;,#.clone:()Ljava/lang/Object;,#.finalize java/lang/String,F,,java/io/Serializable,+.length:()I,+.toString:()Ljava/lang/String;,+.hashCode:()I java/lang/Class,F,,java/io/Serializable,+.desiredAssertionStatus:()Z,+sforName:(Ljava/lang/String;)Ljava/lang/Class; java/lang/Throwable,C,,java/io/Serializable,+.<init> java/lang/Cloneable,I java/io/Serializable,I java/lang/System,F,,+cout:Ljava/io/PrintStream; java/io/PrintStream,C,,+.println:(Ljava/lang/String;)V = Hello,C,,+.<init>,+smain:([Ljava/lang/String;)V = get@java/lang/System.out:Ljava/io/PrintStream; call@java/io/PrintStream.println:(Ljava/lang/String;)V call@java/lang/Object.<init> = 8 1 java/io/PrintStream.println java/lang/Object.<init>.hashCode.equals.toString.getClass.clone.finalize java/lang/String.toString.hashCode java/lang/System.out
- java/lang/Object,C,,+.<init>,+.hashCode:()I,+.equals:(Ljava/lang/Object;)Z,+.toString:()Ljava/lang/String;,+fgetClass:()Ljava/lang/Class;,#.clone:()Ljava/lang/Object;,#.finalize java/lang/String,F,,java/io/Serializable,+.length:()I,+.toString:()Ljava/lang/String;,+.hashCode:()I java/lang/Class,F,,java/io/Serializable,+.desiredAssertionStatus:()Z,+sforName:(Ljava/lang/String;)Ljava/lang/Class; java/lang/Throwable,C,,java/io/Serializable,+.<init> java/lang/Cloneable,I java/io/Serializable,I java/io/PrintStream,C,,+.println:(Ljava/lang/String;)V = Hello,C,,+.<init>,+smain:([Ljava/lang/String;)V = get@java/lang/System.out:Ljava/io/PrintStream; call@java/io/PrintStream.println:(Ljava/lang/String;)V call@java/lang/Object.<init> = Missing java/lang/System
object lib/Bad,C,,+sf:(Lapp/Hidden;)V = app/W,C,,+smain:([Ljava/lang/String;)V app/Hidden,C = call@lib/Bad.f:(Lapp/Hidden;)V = NamesApplication lib/Bad";

/// Rows whose answer is the names in the order in which the source is asked for them.
const ASKED: &str = "\
object java/lang/System,F,,+cout:Ljava/io/PrintStream; java/io/PrintStream,C,,+.println:(Ljava/lang/String;)V = Hello,C,,+.<init>,+smain:([Ljava/lang/String;)V = get@java/lang/System.out:Ljava/io/PrintStream; call@java/io/PrintStream.println:(Ljava/lang/String;)V call@java/lang/Object.<init> = java/io/PrintStream java/io/Serializable java/lang/Class java/lang/Cloneable java/lang/Object java/lang/String java/lang/System java/lang/Throwable
object lib/B,C,lib/A,lib/I lib/I,I lib/A,C,,+.m:()Llib/D; lib/D,C lib/E,C = a/C,C,,+.run = call@lib/B.m:()Llib/D; = java/io/Serializable java/lang/Class java/lang/Cloneable java/lang/Object java/lang/String java/lang/Throwable lib/B lib/D lib/A lib/I
object lib/P,C,lib/Q,+.m:()Llib/A; lib/Q,C lib/A,C,lib/B lib/B,C = a/C,C,lib/P =  = java/io/Serializable java/lang/Class java/lang/Cloneable java/lang/Object java/lang/String java/lang/Throwable lib/P lib/A lib/Q lib/B";

/// The library of a text, with the five classes beside Object that each world has unless it begins with the sign `-`.
fn files_of(alloc: Global, text: &str) -> Result<Vec<ReadFile>, Fail>
    ensures { IfOk result (λ files. IsLibrary files.items) }
{
    match text.strip_prefix("- ") {
        Some(alone) => library_of(alloc, alone),
        None => library_of(alloc, &format!(in alloc; "{CORE} {text}")?),
    }
}

/// A source of the library of a row, of which a call fails, and at which a quantity passes from a call on.
fn source_of(alloc: Global, row: &str, fail: u64, limit_from: u64) -> Result<MemSource, Fail> {
    Ok(MemSource::new(alloc, files_of(alloc, part(row, 0))?, fail, limit_from))
}

/// What is collected of the application of a row.
fn collected(alloc: Global, row: &str, source: &mut MemSource) -> Result<String, Fail> {
    let app = app_of(alloc, part(row, 1), part(row, 2))?;
    let answer = collect(alloc, &app.shapes, &app.maps, &app.bodies, source);
    shown(alloc, &answer)
}

/// What is collected where no call fails and no quantity passes.
fn answer_of(alloc: Global, row: &str) -> Result<String, Fail> {
    collected(alloc, row, &mut source_of(alloc, row, NEVER, NEVER)?)
}

#[test]
fn each_rule_alone(rt: HostRuntime) -> Result<(), Fail> {
    for row in RULES.lines() {
        if !row.starts_with('#') {
            assert_eq!(rt;
                answer_of(rt.alloc(), row)?.as_str(),
                part(row, 3),
                "at {row}"
            );
        }
    }
    Ok(())
}

#[test]
fn chains_and_refusals(rt: HostRuntime) -> Result<(), Fail> {
    for row in CHAINS.lines() {
        if !row.starts_with('#') {
            assert_eq!(rt;
                answer_of(rt.alloc(), row)?.as_str(),
                part(row, 3),
                "at {row}"
            );
        }
    }
    Ok(())
}

/// Whether a source whose call of this number fails was last asked for this name, and one at which a quantity passes
/// from this call on stops collection.
fn stops_at(alloc: Global, row: &str, call: u64, name: &str) -> Result<bool, Fail> {
    let mut failing = source_of(alloc, row, call, NEVER)?;
    let failed = collected(alloc, row, &mut failing)?;
    let passed = collected(alloc, row, &mut source_of(alloc, row, NEVER, call)?)?;
    let last = failing.failed().ok_or("a name at which the source failed")?;
    Ok(
        failed.as_str() == "Failed"
            && passed.as_str() == "Limit"
            && last.as_slice() == name.as_bytes(),
    )
}

/// Whether each call fails at its name, and no other name is asked for.
fn asks_in_order(alloc: Global, row: &str) -> Result<bool, Fail> {
    let mut call = 0u64;
    for name in part(row, 3).split(' ') {
        call = call.saturating_add(1);
        if !stops_at(alloc, row, call, name)? {
            return Ok(false);
        }
    }
    let mut source = source_of(alloc, row, call.saturating_add(1), NEVER)?;
    let _answer = collected(alloc, row, &mut source)?;
    Ok(source.failed().is_none() && source.answered().len() as u64 == call)
}

#[test]
fn each_call_in_turn(rt: HostRuntime) -> Result<(), Fail> {
    for row in ASKED.lines() {
        assert!(rt; asks_in_order(rt.alloc(), row)?, "at {row}");
    }
    Ok(())
}
