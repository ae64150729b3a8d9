/// Object, where a world has no other one.
pub const OBJECT: &str = "\
java/lang/Object,C,,+.<init>,+.hashCode:()I,+.equals:(Ljava/lang/Object;)Z,+.toString:()Ljava/lang/String;,+fgetClass:()Ljava/lang/Class;,#.clone:()Ljava/lang/Object;,#.finalize";

/// A library after the JDK's, cut down.
const LIBRARY: &str = "\
    java/lang/String,F,,java/io/Serializable,+.length:()I,+.toString:()Ljava/lang/String;,+.hashCode:()I \
    java/lang/Class,F,,java/io/Serializable,+.desiredAssertionStatus:()Z,+sforName:(Ljava/lang/String;)Ljava/lang/Class; \
    java/lang/Throwable,C,,java/io/Serializable,+.<init> \
    java/lang/Exception,C,java/lang/Throwable,+.<init> \
    java/lang/Cloneable,I \
    java/io/Serializable,I \
    java/lang/Runnable,I,,+arun \
    java/lang/Thread,C,,java/lang/Runnable,+.<init>:(Ljava/lang/Runnable;)V,+.start,+.run \
    java/lang/System,F,,+cout:Ljava/io/PrintStream; \
    java/io/PrintStream,C,,+.println:(Ljava/lang/String;)V \
    java/lang/Enum,A,,java/io/Serializable,#.<init>:(Ljava/lang/String;I)V,+fordinal:()I,+.toString:()Ljava/lang/String;,+svalueOf:(Ljava/lang/Class;Ljava/lang/String;)Ljava/lang/Enum; \
    java/util/List,I,,+aget:(I)Ljava/lang/Object;,+aadd:(Ljava/lang/Object;)Z \
    java/util/RandomAccess,I \
    java/util/ArrayList,C,,java/util/List,java/util/RandomAccess,java/lang/Cloneable,java/io/Serializable,+.<init>,+.get:(I)Ljava/lang/Object;,+.add:(Ljava/lang/Object;)Z \
    java/util/HashMap,C,,+.<init>,+.put:(Ljava/lang/Object;Ljava/lang/Object;)Ljava/lang/Object; \
    java/util/Collections,C,,+semptyList:()Ljava/util/List; \
    lib/Base,C,,+.<init>,+.m \
    lib/Caller,C,,+scall:(Ljava/lang/Runnable;)V \
    lib/Maker,C,,+sobjects:()[Ljava/lang/Object;,+sdeep:()[[Ljava/lang/Object; \
    lib/Bad,C,,+sf:(Lapp/Hidden;)V";

/// The classes of a text: those of the library where it says `library`, and else its own.
pub fn classes_of(text: &str) -> &str {
    if text == "library" { LIBRARY } else { text }
}
